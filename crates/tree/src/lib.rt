// The tree of regions, and the search in it.
#![tactic(auto)]

pub mod order;
pub mod probes;
pub mod queries;
pub mod regions;
pub mod roots;
pub mod sizes;
pub mod table;
pub mod tree;

// Edits of a tree of regions.
#![tactic(auto)]

pub mod apply;
mod changes;
mod checks;
pub mod edit;
mod marking;
mod marks;
mod paths;
mod tables;

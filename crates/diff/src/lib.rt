// The change list between two maps.
#![tactic(auto)]

pub mod change_lists;
pub mod counts;
mod merge;

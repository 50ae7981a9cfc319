// Listeners: what is told of the ranges of a map, and holds those that it took.
#![tactic(auto)]

pub mod kind_filter;
pub mod listener;
pub mod range_table;
pub mod slot_table;
pub mod slots;

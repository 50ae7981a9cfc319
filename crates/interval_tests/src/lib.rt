// Examples of the interval map and the sweep, at their edges.
#![tactic(auto)]

pub mod offset_labels;
pub mod offsets;
pub mod rows;
#[cfg(test)]
mod tests;

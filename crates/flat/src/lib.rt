// The flat map of a region tree: which ranges of addresses lead where.
#![tactic(auto)]

pub mod flat_map;
pub mod flatten;
pub mod lookups;
pub mod overlays;
mod views;

// Interval maps, over the caller's table or with records of their own, for every label that advances.
#![tactic(auto)]

pub mod edits;
pub mod find;
pub mod joins;
pub mod labels;
pub mod lookups;
pub mod map_edits;
pub mod maps;
pub mod ordered;
pub mod refusals;
pub mod sightings;
mod splices;
pub mod stretches;
pub mod suffixes;

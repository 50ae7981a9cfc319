// The words that all layers share: kinds, places, ranges, changes and faults.
#![tactic(auto)]

pub mod changes;
pub mod faults;
pub mod kinds;
pub mod place_labels;
pub mod places;
pub mod ranges;
pub mod touches;

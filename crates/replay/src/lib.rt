// Carrying out change lists on a set of ranges.
#![tactic(auto)]

pub mod carry;
pub mod failures;

// Change lists as text: one line to a change, written and read exactly.
#![tactic(auto)]

pub mod read;
pub mod round_trip;
mod words;
pub mod writable;
pub mod write;

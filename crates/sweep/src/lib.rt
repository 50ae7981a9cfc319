// What a source shows at each address, written as maximal stretches into a table.
#![tactic(auto)]

pub mod sources;
pub mod sweeps;
mod walks;

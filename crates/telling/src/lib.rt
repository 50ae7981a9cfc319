// Telling a listener of changes.
#![tactic(auto)]

pub mod tell;

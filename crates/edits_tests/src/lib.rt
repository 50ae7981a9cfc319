// Tests of crate edits.
#![tactic(auto)]

#[cfg(test)]
mod tests;

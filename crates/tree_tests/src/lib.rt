// Tests of crate tree.
#![tactic(auto)]

#[cfg(test)]
mod tests;

// Tests of crate flat.
#![tactic(auto)]

#[cfg(test)]
mod tests;

// Large flat maps, made by edits.
#![tactic(auto)]

#[cfg(test)]
mod tests;

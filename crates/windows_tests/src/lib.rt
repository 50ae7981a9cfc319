// The worked windows, made by edits and looked at address by address.
#![tactic(auto)]

#[cfg(test)]
mod tests;

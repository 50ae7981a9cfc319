// The reference machine of a running space, and what holds of all its runs.
#![tactic(auto)]

// Reads and writes of guest addresses, by a flat map.
#![tactic(auto)]

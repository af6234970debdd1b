// Reads the limits and the states' numbers of `base_types` for the definitions of every crate after it. It has no code of its own.
#![tactic(auto)]

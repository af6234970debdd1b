// What the workshop demands, stated and proved. It has no code of its own.
#![tactic(auto)]

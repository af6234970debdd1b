// The starred examples of the bench, as a table that is proved. It has no code of its own.
#![tactic(auto)]

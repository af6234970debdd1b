// Next, cycles and loops: their definitions, and what is true of them. It has no code of its own.
#![tactic(auto)]

// Covers of a loop, over any weight. It has no code of its own.
#![tactic(auto)]

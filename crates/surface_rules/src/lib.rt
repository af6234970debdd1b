// A surface's edges, the table of refusals, and the smallest index that a search finds. It has no code of its own.
#![tactic(auto)]

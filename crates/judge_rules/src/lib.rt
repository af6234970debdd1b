// How a patch set is judged, loop by loop, as the checker promises it. It has no code of its own.
#![tactic(auto)]

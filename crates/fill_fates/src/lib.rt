// What becomes of all loops in the course, as the patcher promises it; the checker shares the covers of a loop where it lies. It has no code of
// its own.
#![tactic(auto)]

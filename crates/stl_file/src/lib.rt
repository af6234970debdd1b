// What a written file of facets is, what writing one answers and leaves, and what is read of it again. It has no code of its own.
#![tactic(auto)]

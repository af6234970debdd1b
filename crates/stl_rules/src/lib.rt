// What a file of facets holds, and what reading one answers and leaves. It has no code of its own.
#![tactic(auto)]

// Definitions and theorems only: which loop of a piece is its rim.
#![tactic(auto)]

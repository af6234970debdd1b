// Texts of two parts, as the sheet text and the patch-set text are: specs and laws alone, no code.
#![tactic(auto)]

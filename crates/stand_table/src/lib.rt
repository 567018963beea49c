// The stand cases of document 01 as one proved table. Theorems alone, no code.
#![tactic(auto)]

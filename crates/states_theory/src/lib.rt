// The lists of states that the engine makes, as places and the best plan of a task. Theorems alone, no code.
#![tactic(auto)]

// The sets of states that a search makes, as diagrams, and the plan that they give. Definitions and theorems alone, no code.
#![tactic(auto)]

// The states within the bound of a task. Definitions and theorems alone, no code.
#![tactic(auto)]

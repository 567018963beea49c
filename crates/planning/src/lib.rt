// Oversubscription planning: tasks, states, plans and the best plan. Definitions and theorems alone, no code.
#![tactic(auto)]

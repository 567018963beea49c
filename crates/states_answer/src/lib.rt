// The answer of the engine that lists states, a summary or a refusal; specs/ defines it, from the file and the lengths of the lent lists.
#![tactic(auto)]

// The best plan's utility and cost, the bound, the number of states within the bound, and the number of the plan's steps.
#[derive(Clone, Copy, PartialEq, Eq, Debug, Default)]
pub struct Summary {
    pub utility: usize,
    pub cost: usize,
    pub bound: usize,
    pub states: usize,
    pub steps: usize,
}

// The answer of a search, a listing or a refusal; specs/ defines it, from the file and the lengths of the lent lists.
#![tactic(auto)]

ghost use Rattle.std.specs.Prelude.{◌≡◌};
ghost use Rattle.task.specs.Decode.{task_of};
ghost use Rattle.search_answer.specs.Search.{figures_of};

use task::header::bound;

// The figures of the listing, the number of pairs of cost and steps that have a set, and the number of the plan's steps.
#[derive(Clone, Copy, PartialEq, Eq, Debug, Default)]
pub struct Listing {
    pub utility: usize,
    pub ceiling: usize,
    pub cost: usize,
    pub bound: usize,
    pub nodes: usize,
    pub entries: usize,
    pub pairs: usize,
    pub steps: usize,
}

// The figures of a task file whose sets are made; there is no plan yet.
#[tactic(auto, using(task::proofs::Goodness::bound_is))]
pub fn figures(
    file: &[u8],
    utility: usize,
    ceiling: usize,
    cost: usize,
    nodes: usize,
    entries: usize,
    pairs: usize,
) -> Listing
    ensures { result ≡ figures_of (task_of file.now) utility ceiling cost nodes entries pairs }
{
    Listing {
        utility,
        ceiling,
        cost,
        bound: bound(file),
        nodes,
        entries,
        pairs,
        steps: 0,
    }
}

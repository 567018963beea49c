// The question about one state: its place, the least cost at which it is reached and the fewest steps at that cost, by the lists that an
// earlier search left.
#![tactic(auto)]

ghost use Rattle.std.specs.Prelude.{◌≡◌, ◌<◌, true};
ghost use Rattle.diagrams.specs.Tree.{trees};
ghost use Rattle.task.specs.Format.{variables};
ghost use Rattle.task.specs.Check.{accepted};
ghost use Rattle.task.specs.Decode.{sizes};
ghost use Rattle.question.specs.Question.{value_right, state_right, place_from, ask_of, question_of};
ghost use Rattle.question.specs.PairSets.{PairSets, held_at};

use diagrams::NodeView;
use diagrams::member::member;
use lent_lists::{listed, lists_wrong, pairs_wrong};
use refusal::Refusal;
use task::bytes::byte;
use task::coding::bits;
use task::header::variables;
use task::records::size;
use task_check::check;
use task_states::cubes::state_word;

// Where a state is reached: cost and steps of the first pair whose set holds it.
#[derive(Clone, Copy, PartialEq, Eq, Debug)]
pub struct Place {
    pub cost: usize,
    pub steps: usize,
}

// The lists of pairs that a search left, with so many pairs in them: cost, steps, and the names of set and wanted set.
#[derive(Clone, Copy)]
pub struct Pairs<'a> {
    pub costs: &'a [u32],
    pub steps: &'a [u32],
    pub sets: &'a [u32],
    pub wanted: &'a [u32],
    pub count: usize,
}

// The value of variable v is in its range.
#[tactic(auto, using(crate::proofs::States::value_is))]
fn value_right(file: &[u8], state: &[u8], v: usize) -> bool
    requires { (v < variables file.now) × (v < 65536) }
    ensures { result ≡ value_right (sizes file.now) state.now v }
{
    byte(state, v) < size(file, v)
}

// 20: there is a value for each variable, and each is in its range.
#[tactic(auto, using(crate::proofs::States::state_short))]
fn state_right(file: &[u8], state: &[u8]) -> bool
    ensures { result ≡ state_right (sizes file.now) state.now }
{
    state.len() == variables(file) && (0..state.len()).all(|v| value_right(file, state, v))
}

// Cost and steps of the first pair whose set holds the state.
#[tactic(auto, using(crate::proofs::Places::place_more, crate::proofs::Places::place_stop, crate::proofs::Places::place_done), unfolding(crate::specs::PairSets::held_at))]
fn first_place(pairs: Pairs, nodes: NodeView, state: u64) -> Option<Place>
    requires { PairSets pairs.costs.now pairs.steps.now pairs.sets.now nodes.bit.now nodes.low.now nodes.high.now nodes.count pairs.count }
    ensures { let entries = trees nodes.entry.bit.now nodes.entry.low.now nodes.entry.high.now nodes.entry.count in
        result ≡ place_from pairs.entry.costs.now pairs.entry.steps.now (held_at pairs.entry.sets.now entries state) pairs.entry.count 0 }
{
    for i in 0..pairs.count {
        if member(nodes, pairs.sets[i], state) {
            return Some(Place {
                cost: pairs.costs[i] as usize,
                steps: pairs.steps[i] as usize,
            });
        }
    }
    None
}

// The tests from 12 on, and the answer, for an accepted file.
#[tactic(auto, using(crate::proofs::Asking::ask_pairs, crate::proofs::Asking::ask_lists, crate::proofs::Asking::ask_state, crate::proofs::Asking::ask_listed, crate::proofs::Asking::ask_place, crate::proofs::States::few_bits, crate::proofs::States::state_long))]
fn ask(file: &[u8], state: &[u8], pairs: Pairs, nodes: NodeView) -> Result<Option<Place>, Refusal>
    requires { accepted file.now ≡ true }
    ensures { result ≡ ask_of (sizes file.now) state.now pairs.entry.costs.now pairs.entry.steps.now pairs.entry.sets.now pairs.entry.wanted.now
        nodes.entry.bit.now nodes.entry.low.now nodes.entry.high.now nodes.entry.count pairs.entry.count }
{
    if pairs_wrong(
        pairs.costs.len(),
        pairs.steps.len(),
        pairs.sets.len(),
        pairs.wanted.len(),
    ) {
        return Err(Refusal::ListLengths);
    }
    if lists_wrong(nodes.bit.len(), nodes.low.len(), nodes.high.len()) {
        return Err(Refusal::ListLengths);
    }
    if !state_right(file, state) {
        return Err(Refusal::State);
    }
    if !listed(
        bits(file),
        pairs.count,
        pairs.sets,
        nodes.bit,
        nodes.low,
        nodes.high,
        nodes.count,
    ) {
        return Err(Refusal::Lists);
    }
    Ok(first_place(pairs, nodes, state_word(file, state)))
}

// The cost and the steps of the first of the pairs whose set in the node lists holds the state: one byte for each variable, in file
// order. Tests 1 to 10 and 12, without utility lists, then 20 and 21.
#[tactic(auto, using(task_check::proofs::Laws::told_accepted, task_check::proofs::Laws::told_refused, crate::proofs::Asking::file_refused, crate::proofs::Asking::file_accepted))]
pub fn question(
    file: &[u8],
    state: &[u8],
    pairs: Pairs,
    nodes: NodeView,
) -> Result<Option<Place>, Refusal>
    ensures { result ≡ question_of file.now state.now pairs.entry.costs.now pairs.entry.steps.now pairs.entry.sets.now pairs.entry.wanted.now
        nodes.entry.bit.now nodes.entry.low.now nodes.entry.high.now nodes.entry.count pairs.entry.count }
{
    check(file)?;
    ask(file, state, pairs, nodes)
}

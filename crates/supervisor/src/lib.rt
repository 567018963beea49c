// The file check, the writer, the walk, the search, the question and the engine that lists states for callers in C; include/laurelsnap.h describes them there.
#![tactic(auto)]

ghost use Rattle.std.specs.Prelude.{◌≡◌, length};
ghost use Rattle.task.specs.Check.{check_of};
ghost use Rattle.writer.specs.Write.{write_of, leaves};
ghost use Rattle.writer.specs.Answers.{numbers as write_numbers};
ghost use Rattle.walk.specs.Walk.{walk_of};
ghost use Rattle.walk.specs.Answers.{numbers as walk_numbers};
ghost use Rattle.search_answer.specs.Lent.{lent};
ghost use Rattle.states_answer.specs.Lent.{lent as state_lists};
ghost use Rattle.question.specs.Question.{question_of};
ghost use Rattle.question.specs.Answers.{numbers as question_numbers};
ghost use Rattle.reports.specs.Reported.{reported, placed, check_numbers};
ghost use Rattle.supervisor.specs.Reports.{Reports, ReportsStates};

use diagrams::NodeView;
use question::{Pairs, question};
use reports::{Place, Report, Tally, Totals};
use search::search;
use states::list_states;
use task_check::check;
use walk::walk;
use writer::write;

// The file check: 0, or the refusal's number and value.
#[unsafe(no_mangle)]
pub extern "C" fn laurelsnap_check(file: &[u8]) -> Report
    ensures { reported result ≡ check_numbers (check_of file.now) }
{
    Report::from(check(file))
}

// The writer: 0 and the length written, or the refusal's number and value.
#[unsafe(no_mangle)]
pub extern "C" fn laurelsnap_write(file: &[u8], out: &mut [u8]) -> Report
    ensures { let f = file.now in
        let before = out.old in
        let after = out.new in
        let answer = write_of f (length before) in
        (reported result ≡ write_numbers answer) × (after ≡ leaves answer f before) }
{
    Report::from(write(file, out))
}

// The walk of a plan: 0, cost and utility, or the refusal's number and value.
#[unsafe(no_mangle)]
pub extern "C" fn laurelsnap_walk(file: &[u8], plan: &[u8]) -> Report
    ensures { reported result ≡ walk_numbers (walk_of file.now plan.now) }
{
    Report::from(walk(file, plan))
}

// The search for the best plan.
#[tactic(auto, using(crate::proofs::Reports::search_is))]
#[unsafe(no_mangle)]
pub extern "C" fn laurelsnap_search(
    file: &[u8],
    costs: &mut [u32],
    steps: &mut [u32],
    sets: &mut [u32],
    wanted: &mut [u32],
    bit: &mut [u32],
    low: &mut [u32],
    high: &mut [u32],
    ubit: &mut [u32],
    ulow: &mut [u32],
    uhigh: &mut [u32],
    heads: &mut [u32],
    chain: &mut [u32],
    memo: &mut [u32],
    plan: &mut [u16],
) -> Totals
    ensures { let before = lent costs.old steps.old sets.old wanted.old bit.old low.old high.old
        ubit.old ulow.old uhigh.old heads.old chain.old memo.old plan.old in
        let after = lent costs.new steps.new sets.new wanted.new bit.new low.new high.new
        ubit.new ulow.new uhigh.new heads.new chain.new memo.new plan.new in
        Reports file.now before after result }
{
    Totals::from(search(
        file, costs, steps, sets, wanted, bit, low, high, ubit, ulow, uhigh, heads, chain, memo,
        plan,
    ))
}

// The question about one state: its place, or that it is not reached.
#[unsafe(no_mangle)]
pub extern "C" fn laurelsnap_question(
    file: &[u8],
    state: &[u8],
    costs: &[u32],
    steps: &[u32],
    sets: &[u32],
    wanted: &[u32],
    bit: &[u32],
    low: &[u32],
    high: &[u32],
    count: usize,
    pairs: usize,
) -> Place
    ensures { let answer = question_of file.now state.now
        costs.now steps.now sets.now wanted.now bit.now low.now high.now count pairs in
        placed result ≡ question_numbers answer }
{
    let pairs = Pairs {
        costs,
        steps,
        sets,
        wanted,
        count: pairs,
    };
    let nodes = NodeView {
        bit,
        low,
        high,
        count,
    };
    Place::from(question(file, state, pairs, nodes))
}

// The engine that lists states: every state within the bound with its place, and the best plan.
#[tactic(auto, using(crate::proofs::Reports::states_is))]
#[unsafe(no_mangle)]
pub extern "C" fn laurelsnap_states(
    file: &[u8],
    states: &mut [u64],
    costs: &mut [u32],
    steps: &mut [u32],
    heads: &mut [u32],
    links: &mut [u32],
    plan: &mut [u16],
) -> Tally
    ensures { let before = state_lists states.old costs.old steps.old heads.old links.old plan.old in
        let after = state_lists states.new costs.new steps.new heads.new links.new plan.new in
        ReportsStates file.now before after result }
{
    Tally::from(list_states(file, states, costs, steps, heads, links, plan))
}

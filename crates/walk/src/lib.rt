// The walk of a given plan, two bytes for each step, low byte first.
#![tactic(auto)]

ghost use Rattle.std.specs.Prelude.{◌≡◌, ◌≤◌, ◌<◌, length, IfOk, OnOk};
ghost use Rattle.planning.specs.Model.{apply, operator_at};
ghost use Rattle.task.specs.Bytes.{Reads};
ghost use Rattle.task.specs.Limits.{most_variables};
ghost use Rattle.task.specs.Format.{bound, operators, variables};
ghost use Rattle.task.specs.Decode.{task_of};
ghost use Rattle.walk.specs.Walk.{step_of, walk_from, walk_of, steps};

use refusal::{Fault, Refusal};
use task::bytes::le16;
use task::header::{bound, operators, variables};
use task::limits::MOST_VARIABLES;
use task::records::{
    cost, effect_count, effects, operator_record, precondition_count, preconditions,
};
use task_check::check;
use task_states::state::{apply, holds, start, utility};

// What a walk ends with: the cost of its steps and the utility of the last state.
#[derive(Clone, Copy)]
pub struct Reached {
    pub cost: usize,
    pub utility: usize,
}

// Applies operator o in the state, after steps of this cost, and gives the cost with it. The number of operators and the bound are
// handed in, since a long walk would read them anew at each step.
fn step(
    file: &[u8],
    count: usize,
    limit: usize,
    state: &mut [u8],
    spent: usize,
    o: usize,
) -> Result<usize, Fault>
    requires small { (spent < 65536) × (o < 65536) }
    requires header { (count ≡ operators file.now) × Reads limit (bound file.now) 65536 }
    ensures answer { result ≡ step_of (task_of file.now) state.old spent o }
    ensures small { IfOk result (λ cost. cost < 65536) }
    ensures applied { OnOk result (state.new ≡ apply state.old (operator_at (task_of file.now).operators o).eff) }
{
    if count <= o {
        return Err(Fault::Operator);
    }
    let record = operator_record(file, o);
    if !holds(state, preconditions(record), precondition_count(record)) {
        return Err(Fault::Precondition);
    }
    let cost = spent + cost(record);
    if limit < cost {
        return Err(Fault::Bound);
    }
    apply(state, effects(record), effect_count(record));
    Ok(cost)
}

// Walks the plan from the state, step by step, up to the first that fails.
fn follow(file: &[u8], plan: &[u8], state: &mut [u8]) -> Result<Reached, Refusal>
    ensures { result ≡ walk_from (task_of file.now) 0 state.old 0 (steps plan.now) }
{
    let count = operators(file);
    let limit = bound(file);
    let mut cost = 0;
    for at in 0..plan.len() / 2 {
        match step(file, count, limit, state, cost, le16(plan, 2 * at)) {
            Ok(more) => cost = more,
            Err(fault) => return Err(Refusal::Step { step: at, fault }),
        }
    }
    Ok(Reached {
        cost,
        utility: utility(file, state),
    })
}

// Walks the plan from the starting state, in the room that is lent for a state.
fn walk_in(file: &[u8], plan: &[u8], state: &mut [u8]) -> Result<Reached, Refusal>
    requires { (length state.old ≡ variables file.now) × (length state.old ≤ most_variables) }
    ensures { result ≡ walk_from (task_of file.now) 0 (task_of file.now).start 0 (steps plan.now) }
{
    start(file, state);
    follow(file, plan, state)
}

// The walk of a plan: the cost and the utility that it ends with, or the first step that fails.
pub fn walk(file: &[u8], plan: &[u8]) -> Result<Reached, Refusal>
    ensures { result ≡ walk_of file.now plan.now }
{
    check(file)?;
    if plan.len() % 2 != 0 {
        return Err(Refusal::PlanOdd);
    }
    let mut state = [0u8; MOST_VARIABLES];
    let n = variables(file);
    walk_in(file, plan, &mut state[..n])
}

// States: a value for each variable, one byte each, in a lent slice.
ghost use Rattle.std.specs.Prelude.{◌≡◌, ◌<◌, length, set};
ghost use Rattle.task.specs.Bytes.{Reads};
ghost use Rattle.planning.specs.Model.{holds, apply, state_utility};
ghost use Rattle.planning.specs.Scan.{tab};
ghost use Rattle.task.specs.Format.{start_value};
ghost use Rattle.task.specs.Decode.{facts, task_of};
ghost use Rattle.task_states.specs.States.{met, gain};

use task::bytes::byte;
use task::facts::{fact_value, fact_variable};
use task::header::terms;
use task::records::{start_value, term_count, term_facts, term_record, weight};

// Gives variable v the value x, if there is such a variable.
#[tactic(auto, using(crate::proofs::StateLaws::put_out))]
fn put(state: &mut [u8], v: usize, x: usize)
    requires { x < 256 }
    ensures { state.new ≡ set state.old v x }
{
    if v < state.len() {
        state[v] = x as u8;
    }
}

// Writes the starting value of each variable that the state has room for.
#[tactic(auto, using(crate::proofs::StateLaws::start_more, crate::proofs::StateLaws::start_done), unfolding(planning::specs::Scan::tab))]
pub fn start(file: &[u8], state: &mut [u8])
    requires { length state.old < 65536 }
    ensures { state.new ≡ tab (start_value file.now) (length state.old) 0 }
{
    for (v, place) in state.iter_mut().enumerate() {
        *place = start_value(file, v) as u8;
    }
}

// Fact k of a row holds in the state.
#[tactic(auto, unfolding(crate::specs::States::met, planning::specs::Model::value_of, task::specs::Bytes::byte))]
pub fn met(state: &[u8], row: &[u8], k: usize) -> bool
    requires { k < 65536 }
    ensures { result ≡ met state.now row.now k }
{
    byte(state, fact_variable(row, k)) == fact_value(row, k)
}

// The first n facts of a row hold in the state.
pub fn holds(state: &[u8], row: &[u8], n: usize) -> bool
    requires { n < 256 }
    ensures { result ≡ holds state.now (facts row.now n) }
{
    (0..n).all(|k| met(state, row, k))
}

// Makes the first n facts of a row hold.
#[tactic(auto, using(crate::proofs::StateLaws::applied_none, crate::proofs::StateLaws::applied_more, crate::proofs::StateLaws::applied_done))]
pub fn apply(state: &mut [u8], row: &[u8], n: usize)
    requires { n < 256 }
    ensures { state.new ≡ apply state.old (facts row.now n) }
{
    for k in 0..n {
        put(state, fact_variable(row, k), fact_value(row, k));
    }
}

// The weight of term t in the state: 0 where a fact of it does not hold.
fn gain(file: &[u8], state: &[u8], t: usize) -> usize
    requires { t < 65536 }
    ensures { Reads result (gain file.now state.now t) 65536 }
{
    let record = term_record(file, t);
    if holds(state, term_facts(record), term_count(record)) {
        weight(record)
    } else {
        0
    }
}

// The utility of the state: the sum of the weights of the terms that hold in it.
#[tactic(auto, using(crate::proofs::StateLaws::sum_none))]
pub fn utility(file: &[u8], state: &[u8]) -> usize
    ensures { result ≡ state_utility (task_of file.now).terms state.now }
{
    let mut sum: usize = 0;
    for t in 0..terms(file) {
        sum += gain(file, state, t);
    }
    sum
}

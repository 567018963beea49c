// The utility of states that are words, and the greatest of a list of states.
#![tactic(auto)]

ghost use Rattle.std.specs.Prelude.{◌≡◌, true, ℕ, ◌≤◌, ◌<◌, length};
ghost use Rattle.planning.specs.Connectives.{pick};
ghost use Rattle.task.specs.Format.{terms};
ghost use Rattle.task.specs.Check.{accepted};
ghost use Rattle.states_moves.specs.Words.{meets};
ghost use Rattle.states_worth.specs.Worth.{worth_of, Weighed, IsTerm, TermsTabled, Greatest};

use states_moves::meets;
use task::header::terms;
use task_states::cubes::Cube;
use task_states::model::{term_cube, term_weight};

// A term as words: its weight, and its facts as a cube.
#[derive(Clone, Copy)]
pub struct Weighted {
    pub weight: u64,
    pub facts: Cube,
}

impl Weighted {
    // A term that is worth nothing.
    pub const NOTHING: Weighted = Weighted {
        weight: 0,
        facts: Cube { care: 0, value: 0 },
    };

    // What the term is worth in s.
    #[tactic(auto, unfolding(planning::specs::Connectives::pick))]
    fn gain(&self, s: u64) -> u64
        ensures { result ≡ pick (meets self.now.facts.care self.now.facts.value s) self.now.weight 0 }
    {
        if meets(s, self.facts.care, self.facts.value) {
            self.weight
        } else {
            0
        }
    }
}

// Term j of an accepted file.
#[tactic(auto, using(crate::proofs::Rows::few_terms), unfolding(task::specs::Decode::task_of))]
fn term(file: &[u8], j: usize) -> Weighted
    requires { (accepted file.now ≡ true) × (j < terms file.now) }
    ensures { IsTerm file.now result j }
{
    Weighted {
        weight: term_weight(file, j) as u64,
        facts: term_cube(file, j),
    }
}

// Fills the table with the terms of an accepted file, of which it has room for all.
pub fn tabulate(file: &[u8], table: &mut [Weighted])
    requires { (accepted file.now ≡ true) × (terms file.now ≤ length table.old) }
    ensures { TermsTabled file.now table.new }
{
    for j in 0..terms(file) {
        table[j] = term(file, j);
    }
}

// The utility of s, by the terms of the table.
pub fn worth(table: &[Weighted], s: u64) -> u64
    requires { Weighed table.now (length table.now) }
    ensures { (result ≡ worth_of table.now (length table.now) s) × (result < 16777216) }
{
    let mut sum: u64 = 0;
    for term in table {
        sum += term.gain(s);
    }
    sum
}

// The greatest utility, and the first state that has it.
#[derive(Clone, Copy)]
pub struct Top {
    pub utility: u64,
    pub at: usize,
}

// The greatest utility of some states.
pub fn greatest(table: &[Weighted], states: &[u64]) -> Top
    requires weighed { Weighed table.now (length table.now) }
    requires some { 0 < length states.now }
    ensures { Greatest table.now (length table.now) states.now (length states.now) result }
{
    let mut utility = worth(table, states[0]);
    let mut at = 0;
    for i in 1..states.len() {
        let u = worth(table, states[i]);
        if utility < u {
            utility = u;
            at = i;
        }
    }
    Top { utility, at }
}

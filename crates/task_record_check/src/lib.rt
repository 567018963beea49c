// The rules for each kind of record, and the first record of each kind that breaks them: the refusals 7, 9 and 10.
#![tactic(auto, using(planning::proofs::Guards::tests), unfolding(task::specs::Check::names_variable, task::specs::Check::has_value, task::specs::Check::rises, task::specs::Check::used_right, task::specs::Check::unused_right, task::specs::Check::fact_right, task::specs::Check::variable_right, task::specs::Check::cost_right, task::specs::Check::fact_counts_right, task::specs::Check::preconditions_right, task::specs::Check::effects_right, task::specs::Check::operator_record_right, task::specs::Check::operator_right, task::specs::Check::term_counts_right, task::specs::Check::term_facts_right, task::specs::Check::term_record_right, task::specs::Check::term_right))]

mod facts;

ghost use Rattle.std.specs.Prelude.{◌≡◌, ◌<◌};
ghost use Rattle.task.specs.Format.{variables, operators, terms};
ghost use Rattle.task_record_check.specs.First.{IsFirst};
ghost use Rattle.task.specs.Check.{variable_right, cost_right, fact_counts_right, preconditions_right, effects_right, operator_record_right, operator_right, term_counts_right, term_facts_right, term_record_right, term_right, first_bad_variable, first_bad_operator, first_bad_term};

use crate::facts::facts_right;
use task::header::{operators, terms, variables};
use task::limits::{LEAST_VALUES, MOST_COST, MOST_VALUES, OPERATOR_PLACES, TERM_PLACES};
use task::records::{
    cost, effect_count, effects, operator_record, precondition_count, preconditions, size,
    start_value, term_count, term_facts, term_record, term_zero,
};

// Two to sixteen values, and a starting value among them.
fn variable_right(file: &[u8], v: usize) -> bool
    requires { v < 65536 }
    ensures { result ≡ variable_right file.now v }
{
    let d = size(file, v);
    LEAST_VALUES <= d && d <= MOST_VALUES && start_value(file, v) < d
}

// The cost is at most 4,095; it may be 0.
fn cost_right(record: &[u8]) -> bool
    ensures { result ≡ cost_right «record».now }
{
    cost(record) <= MOST_COST
}

// The counts of preconditions and of effects are in their range.
fn fact_counts_right(record: &[u8]) -> bool
    ensures { result ≡ fact_counts_right «record».now }
{
    precondition_count(record) <= OPERATOR_PLACES && effect_count(record) <= OPERATOR_PLACES
}

// The precondition places are right.
fn preconditions_right(file: &[u8], record: &[u8]) -> bool
    ensures { result ≡ preconditions_right file.now «record».now }
{
    facts_right(
        file,
        preconditions(record),
        precondition_count(record),
        OPERATOR_PLACES,
    )
}

// The effect places are right.
fn effects_right(file: &[u8], record: &[u8]) -> bool
    ensures { result ≡ effects_right file.now «record».now }
{
    facts_right(file, effects(record), effect_count(record), OPERATOR_PLACES)
}

// An operator's record is right.
fn operator_record_right(file: &[u8], record: &[u8]) -> bool
    ensures { result ≡ operator_record_right file.now «record».now }
{
    cost_right(record)
        && fact_counts_right(record)
        && preconditions_right(file, record)
        && effects_right(file, record)
}

// Operator o's record is right.
fn operator_right(file: &[u8], o: usize) -> bool
    requires { o < 65536 }
    ensures { result ≡ operator_right file.now o }
{
    operator_record_right(file, operator_record(file, o))
}

// The count of facts is in its range, and the byte behind it is zero.
fn term_counts_right(record: &[u8]) -> bool
    ensures { result ≡ term_counts_right «record».now }
{
    term_count(record) <= TERM_PLACES && term_zero(record) == 0
}

// The fact places are right.
fn term_facts_right(file: &[u8], record: &[u8]) -> bool
    ensures { result ≡ term_facts_right file.now «record».now }
{
    facts_right(file, term_facts(record), term_count(record), TERM_PLACES)
}

// A term's record is right.
fn term_record_right(file: &[u8], record: &[u8]) -> bool
    ensures { result ≡ term_record_right file.now «record».now }
{
    term_counts_right(record) && term_facts_right(file, record)
}

// Term t's record is right.
fn term_right(file: &[u8], t: usize) -> bool
    requires { t < 65536 }
    ensures { result ≡ term_right file.now t }
{
    term_record_right(file, term_record(file, t))
}

// The first variable whose record breaks the rules.
pub fn first_bad_variable(file: &[u8]) -> Option<usize>
    ensures { IsFirst result (first_bad_variable file.now) (variables file.now) }
{
    (0..variables(file)).find(|v| !variable_right(file, *v))
}

// The first operator whose record breaks the rules.
pub fn first_bad_operator(file: &[u8]) -> Option<usize>
    ensures { IsFirst result (first_bad_operator file.now) (operators file.now) }
{
    (0..operators(file)).find(|o| !operator_right(file, *o))
}

// The first term whose record breaks the rules.
pub fn first_bad_term(file: &[u8]) -> Option<usize>
    ensures { IsFirst result (first_bad_term file.now) (terms file.now) }
{
    (0..terms(file)).find(|t| !term_right(file, *t))
}

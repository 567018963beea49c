// The file check: refusals 1 to 10, in order.
#![tactic(auto, using(planning::proofs::Guards::tests), unfolding(task::specs::Check::check_of, task::specs::Check::accepted, planning::specs::Connectives::pick))]

ghost use Rattle.std.specs.Prelude.{◌≡◌};
ghost use Rattle.task.specs.Check.{check_of, accepted};
ghost use Rattle.task_check.specs.Answers.{answer, passed};

use refusal::Refusal;
use task::coding::bits;
use task::limits::MOST_BITS;
use task_header_check::header_fault;
use task_record_check::{first_bad_operator, first_bad_term, first_bad_variable};

// Tests the file by the rules 1 to 10, in order (specs/Answers.antt has document 01's number and value for each answer).
pub fn check(file: &[u8]) -> Result<(), Refusal>
    ensures { (answer result ≡ check_of file.now) × (passed result ≡ accepted file.now) }
{
    header_fault(file)?;
    if let Some(v) = first_bad_variable(file) {
        return Err(Refusal::Variable(v as u16));
    }
    if MOST_BITS < bits(file) {
        return Err(Refusal::Bits);
    }
    if let Some(o) = first_bad_operator(file) {
        return Err(Refusal::Operator(o as u16));
    }
    if let Some(t) = first_bad_term(file) {
        return Err(Refusal::Term(t as u16));
    }
    Ok(())
}

// The file passes the check.
pub fn accepted(file: &[u8]) -> bool
    ensures { result ≡ accepted file.now }
{
    check(file).is_ok()
}

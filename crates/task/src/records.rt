// The records of a task file: each is the part of the file that holds it, and its fields are read there.
ghost use Rattle.std.specs.Prelude.{◌≡◌, ◌<◌};
ghost use Rattle.task.specs.Bytes.{Reads};
ghost use Rattle.task.specs.Format.{variable_record, operator_record, term_record, size, start_value, cost, precondition_count, effect_count, preconditions, effects, weight, term_count, term_zero, term_facts};

use crate::bytes::{byte, le16, part};
use crate::header::{operators_at, terms_at, variables_at};
use crate::limits::{
    EFFECTS_AT, FACTS_AT, OPERATOR_BYTES, OPERATOR_PLACES, TERM_BYTES, TERM_PLACES, VARIABLE_BYTES,
};

// The record of variable v.
#[tactic(auto, unfolding(crate::specs::Format::variable_record))]
fn variable_record(file: &[u8], v: usize) -> &[u8]
    requires { v < 65536 }
    ensures { result.now ≡ variable_record file.now v }
{
    part(
        file,
        variables_at(file) + VARIABLE_BYTES * v,
        VARIABLE_BYTES,
    )
}

// The record of operator o.
#[tactic(auto, unfolding(crate::specs::Format::operator_record))]
pub fn operator_record(file: &[u8], o: usize) -> &[u8]
    requires { o < 65536 }
    ensures { result.now ≡ operator_record file.now o }
{
    part(
        file,
        operators_at(file) + OPERATOR_BYTES * o,
        OPERATOR_BYTES,
    )
}

// The record of term t.
#[tactic(auto, unfolding(crate::specs::Format::term_record))]
pub fn term_record(file: &[u8], t: usize) -> &[u8]
    requires { t < 65536 }
    ensures { result.now ≡ term_record file.now t }
{
    part(file, terms_at(file) + TERM_BYTES * t, TERM_BYTES)
}

// The number of values of variable v.
pub fn size(file: &[u8], v: usize) -> usize
    requires { v < 65536 }
    ensures { Reads result (size file.now v) 256 }
{
    byte(variable_record(file, v), 0)
}

// Its starting value.
pub fn start_value(file: &[u8], v: usize) -> usize
    requires { v < 65536 }
    ensures { Reads result (start_value file.now v) 256 }
{
    byte(variable_record(file, v), 1)
}

// The cost in an operator's record.
pub fn cost(record: &[u8]) -> usize
    ensures { Reads result (cost «record».now) 65536 }
{
    le16(record, 0)
}

// How many of its precondition places are used.
pub fn precondition_count(record: &[u8]) -> usize
    ensures { Reads result (precondition_count «record».now) 256 }
{
    byte(record, 2)
}

// How many of its effect places are used.
pub fn effect_count(record: &[u8]) -> usize
    ensures { Reads result (effect_count «record».now) 256 }
{
    byte(record, 3)
}

// The eight places of the preconditions in an operator's record.
pub fn preconditions(record: &[u8]) -> &[u8]
    ensures { result.now ≡ preconditions «record».now }
{
    part(record, FACTS_AT, 2 * OPERATOR_PLACES)
}

// The eight places of the effects: the last 16 bytes of an operator's record.
#[tactic(auto, using(crate::proofs::Laws::effects_in, crate::proofs::Laws::effects_out))]
pub fn effects(record: &[u8]) -> &[u8]
    ensures { result.now ≡ effects «record».now }
{
    if record.len() == OPERATOR_BYTES {
        &record[EFFECTS_AT..]
    } else {
        &record[..0]
    }
}

// The weight in a term's record.
pub fn weight(record: &[u8]) -> usize
    ensures { Reads result (weight «record».now) 65536 }
{
    le16(record, 0)
}

// How many of its fact places are used.
pub fn term_count(record: &[u8]) -> usize
    ensures { Reads result (term_count «record».now) 256 }
{
    byte(record, 2)
}

// The byte behind the count, which is to be zero.
pub fn term_zero(record: &[u8]) -> usize
    ensures { Reads result (term_zero «record».now) 256 }
{
    byte(record, 3)
}

// The four places of the facts in a term's record.
pub fn term_facts(record: &[u8]) -> &[u8]
    ensures { result.now ≡ term_facts «record».now }
{
    part(record, FACTS_AT, 2 * TERM_PLACES)
}

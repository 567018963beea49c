// The header of a task file: the refusals 1 to 6.
#![tactic(auto, using(planning::proofs::Guards::tests), unfolding(task::specs::Check::letters_right, task::specs::Check::length_right, task::specs::Check::counts_right, task::specs::Check::section_inside, task::specs::Check::apart, task::specs::Check::all_inside, task::specs::Check::all_apart, task::specs::Check::header_fault))]

ghost use Rattle.std.specs.Prelude.{◌≡◌, ◌<◌, ◌^◌, MatchResult};
ghost use Rattle.refusal.specs.Refusals.{number, place};
ghost use Rattle.task.specs.Check.{letters_right, length_right, counts_right, section_inside, apart, all_inside, all_apart, header_fault};

use refusal::Refusal;
use task::bytes::le32;
use task::header::{
    Section, bound, operator_section, operators, term_section, terms, variable_section, variables,
};
use task::limits::{
    HEADER_BYTES, MOST_BOUND, MOST_FILE_BYTES, MOST_OPERATORS, MOST_TERMS, MOST_VARIABLES,
};

// The first four bytes are the letters BPT1.
fn letters_right(file: &[u8]) -> bool
    ensures { result ≡ letters_right file.now }
{
    file.starts_with(b"BPT1")
}

// The length field is the file's length.
fn length_right(file: &[u8]) -> bool
    ensures { result ≡ length_right file.now }
{
    le32(file, 24) == file.len()
}

// Each count, and the bound, is in its range.
fn counts_right(file: &[u8]) -> bool
    ensures { result ≡ counts_right file.now }
{
    1 <= variables(file)
        && variables(file) <= MOST_VARIABLES
        && operators(file) <= MOST_OPERATORS
        && terms(file) <= MOST_TERMS
        && bound(file) <= MOST_BOUND
}

// The section stands after the header, in a file of len bytes.
fn section_inside(len: usize, section: Section) -> bool
    ensures { result ≡ section_inside len section.at section.bytes }
{
    HEADER_BYTES <= section.at && section.at + section.bytes <= len
}

// One of two sections is empty, or it ends before the other begins.
fn apart(a: Section, b: Section) -> bool
    ensures { result ≡ apart a.at a.bytes b.at b.bytes }
{
    a.bytes == 0 || b.bytes == 0 || a.at + a.bytes <= b.at || b.at + b.bytes <= a.at
}

// Each section, an empty one too, stands after the header and ends within the file.
fn all_inside(file: &[u8]) -> bool
    ensures { result ≡ all_inside file.now }
{
    section_inside(file.len(), variable_section(file))
        && section_inside(file.len(), operator_section(file))
        && section_inside(file.len(), term_section(file))
}

// No two sections that are not empty overlap.
fn all_apart(file: &[u8]) -> bool
    ensures { result ≡ all_apart file.now }
{
    let variables = variable_section(file);
    let operators = operator_section(file);
    let terms = term_section(file);
    apart(variables, operators) && apart(variables, terms) && apart(operators, terms)
}

// The header's rules 1 to 6, in order.
pub fn header_fault(file: &[u8]) -> Result<(), Refusal>
    ensures { MatchResult result (λ _. header_fault file.now ≡ 0) (λ refusal. (number refusal ≡ header_fault file.now) × (place refusal ≡ 0)) }
{
    if file.len() < HEADER_BYTES {
        return Err(Refusal::FileShort);
    }
    if MOST_FILE_BYTES < file.len() {
        return Err(Refusal::FileLong);
    }
    if !letters_right(file) {
        return Err(Refusal::Letters);
    }
    if !length_right(file) {
        return Err(Refusal::FileLength);
    }
    if !counts_right(file) {
        return Err(Refusal::Counts);
    }
    if !all_inside(file) || !all_apart(file) {
        return Err(Refusal::Sections);
    }
    Ok(())
}

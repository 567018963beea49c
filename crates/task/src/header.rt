// The numbers in the header of a task file, and its sections.
ghost use Rattle.std.specs.Prelude.{◌≡◌, ◌<◌, ◌*◌, ◌^◌};
ghost use Rattle.task.specs.Limits.{variable_bytes, operator_bytes, term_bytes};
ghost use Rattle.task.specs.Bytes.{Reads};
ghost use Rattle.task.specs.Format.{variables, operators, terms, bound, variables_at, operators_at, terms_at};

use crate::bytes::{le16, le32};
use crate::limits::{OPERATOR_BYTES, TERM_BYTES, VARIABLE_BYTES};

// Where a section begins, and how many bytes it has.
#[derive(Clone, Copy)]
pub struct Section {
    pub at: usize,
    pub bytes: usize,
    ghost small: { (at < 2 ^ 32) × (bytes < 2 ^ 32) },
}

// The header's counts, and the bound.
pub fn variables(file: &[u8]) -> usize
    ensures { Reads result (variables file.now) 65536 }
{
    le16(file, 4)
}

pub fn operators(file: &[u8]) -> usize
    ensures { Reads result (operators file.now) 65536 }
{
    le16(file, 6)
}

pub fn terms(file: &[u8]) -> usize
    ensures { Reads result (terms file.now) 65536 }
{
    le16(file, 8)
}

pub fn bound(file: &[u8]) -> usize
    ensures { Reads result (bound file.now) 65536 }
{
    le16(file, 10)
}

// Where the sections begin.
pub fn variables_at(file: &[u8]) -> usize
    ensures { Reads result (variables_at file.now) 4294967296 }
{
    le32(file, 12)
}

pub fn operators_at(file: &[u8]) -> usize
    ensures { Reads result (operators_at file.now) 4294967296 }
{
    le32(file, 16)
}

pub fn terms_at(file: &[u8]) -> usize
    ensures { Reads result (terms_at file.now) 4294967296 }
{
    le32(file, 20)
}

// The section of the variables.
pub fn variable_section(file: &[u8]) -> Section
    ensures at { result.at ≡ variables_at file.now }
    ensures bytes { result.bytes ≡ variable_bytes * variables file.now }
{
    Section {
        at: variables_at(file),
        bytes: VARIABLE_BYTES * variables(file),
    }
}

// The section of the operators.
pub fn operator_section(file: &[u8]) -> Section
    ensures at { result.at ≡ operators_at file.now }
    ensures bytes { result.bytes ≡ operator_bytes * operators file.now }
{
    Section {
        at: operators_at(file),
        bytes: OPERATOR_BYTES * operators(file),
    }
}

// The section of the terms.
pub fn term_section(file: &[u8]) -> Section
    ensures at { result.at ≡ terms_at file.now }
    ensures bytes { result.bytes ≡ term_bytes * terms file.now }
{
    Section {
        at: terms_at(file),
        bytes: TERM_BYTES * terms(file),
    }
}

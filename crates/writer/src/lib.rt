// The writer: a task's canonical file, its sections in order and without gaps, so that files of one task can be compared by their bytes.
#![tactic(auto)]

ghost use Rattle.std.specs.Prelude.{◌≡◌, true, ◌+◌, ◌≤◌, ◌<◌, length, get_or};
ghost use mathlib.Core.List.{[], flatten};
ghost use Rattle.task.specs.Limits.{header_bytes};
ghost use Rattle.task.specs.Bytes.{Reads, bytes16, bytes32};
ghost use Rattle.task.specs.Check.{accepted};
ghost use Rattle.writer.specs.Canonical.{sections, section_count, begin, counts, offsets};
ghost use Rattle.writer.specs.Write.{overlay, write_of, leaves};

use refusal::Refusal;
use task::bytes::part;
use task::header::{
    bound, operator_section, operators, term_section, terms, variable_section, variables,
};
use task::limits::HEADER_BYTES;
use task_check::check;

// The sections of a file: the variables, the operators, the terms.
const SECTIONS: usize = 3;

// Section k, in the order in which they are written, as the part of the file that holds it.
fn section(file: &[u8], k: usize) -> &[u8]
    requires { (accepted file.now ≡ true) × (k < section_count) }
    ensures { result.now ≡ get_or (sections file.now) k [] }
{
    let section = match k {
        0 => variable_section(file),
        1 => operator_section(file),
        _ => term_section(file),
    };
    part(file, section.at, section.bytes)
}

// Where section k is to begin: behind the header and the sections before it; for SECTIONS, where the written file ends.
fn begin(file: &[u8], k: usize) -> usize
    requires { (accepted file.now ≡ true) × (k ≤ section_count) }
    ensures { Reads result (begin file.now k) 4294967296 }
{
    let mut at = HEADER_BYTES;
    for i in 0..k {
        at += section(file, i).len();
    }
    at
}

// Writes bytes from a place on. One by one: a copy of slices calls memmove, which the library for C would then need from outside.
fn copy(out: &mut [u8], at: usize, bytes: &[u8])
    requires { at + length bytes.now ≤ length out.old }
    ensures { out.new ≡ overlay out.old at bytes.now }
{
    for (i, byte) in bytes.iter().enumerate() {
        out[at + i] = *byte;
    }
}

// Writes a number of two bytes, low byte first.
fn put16(out: &mut [u8], at: usize, x: usize)
    requires { (at + 2 ≤ length out.old) × (x < 65536) }
    ensures { out.new ≡ overlay out.old at (bytes16 x) }
{
    copy(out, at, &(x as u16).to_le_bytes());
}

// Writes a number of four bytes, low byte first.
fn put32(out: &mut [u8], at: usize, x: usize)
    requires { (at + 4 ≤ length out.old) × (x < 4294967296) }
    ensures { out.new ≡ overlay out.old at (bytes32 x) }
{
    copy(out, at, &(x as u32).to_le_bytes());
}

// Writes the letters, the counts and the bound.
fn put_counts(file: &[u8], out: &mut [u8])
    requires { header_bytes ≤ length out.old }
    ensures { out.new ≡ overlay out.old 0 (counts file.now) }
{
    copy(out, 0, b"BPT1");
    put16(out, 4, variables(file));
    put16(out, 6, operators(file));
    put16(out, 8, terms(file));
    put16(out, 10, bound(file));
}

// Writes where the sections begin, and the length.
fn put_offsets(file: &[u8], out: &mut [u8])
    requires { (accepted file.now ≡ true) × (header_bytes ≤ length out.old) }
    ensures { out.new ≡ overlay out.old 12 (offsets file.now) }
{
    put32(out, 12, begin(file, 0));
    put32(out, 16, begin(file, 1));
    put32(out, 20, begin(file, 2));
    put32(out, 24, begin(file, SECTIONS));
}

// Writes the sections one behind the other.
fn put_sections(file: &[u8], out: &mut [u8])
    requires { (accepted file.now ≡ true) × (begin file.now section_count ≤ length out.old) }
    ensures { out.new ≡ overlay out.old header_bytes (flatten (sections file.now)) }
{
    for k in 0..SECTIONS {
        copy(out, begin(file, k), section(file, k));
    }
}

// Writes the canonical file of the file's task to the front of a lent list, and gives its length. Refused (1 to 10, then 22), the list is as it was.
pub fn write(file: &[u8], out: &mut [u8]) -> Result<usize, Refusal>
    ensures { let f = file.now in
        let before = out.old in
        let after = out.new in
        (result ≡ write_of f (length before)) × (after ≡ leaves result f before) }
{
    check(file)?;
    let length = begin(file, SECTIONS);
    if out.len() < length {
        return Err(Refusal::OutputShort);
    }
    put_counts(file, out);
    put_offsets(file, out);
    put_sections(file, out);
    Ok(length)
}

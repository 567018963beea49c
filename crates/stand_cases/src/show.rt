// Writes the answers, one to a line behind the case's name.
use std::io;
use std::io::Write;
use task_check::check;
use walk::walk;

// The file check's answer.
pub fn checked<W: Write>(out: &mut W, name: &[u8], file: &[u8]) -> io::Result<()> {
    out.write_all(name)?;
    out.write_all(b": ")?;
    match check(file) {
        Ok(()) => writeln!(out, "accepted"),
        Err(refusal) => writeln!(out, "{refusal}"),
    }
}

// The file check's answer to the first n of the bytes.
pub fn checked_first<W: Write>(out: &mut W, name: &[u8], bytes: &[u8], n: usize) -> io::Result<()> {
    if n <= bytes.len() {
        checked(out, name, &bytes[..n])?;
    }
    Ok(())
}

// The walk's answer.
pub fn walked<W: Write>(out: &mut W, name: &[u8], file: &[u8], plan: &[u8]) -> io::Result<()> {
    out.write_all(name)?;
    out.write_all(b": ")?;
    match walk(file, plan) {
        Ok(end) => writeln!(out, "cost {} utility {}", end.cost, end.utility),
        Err(refusal) => writeln!(out, "{refusal}"),
    }
}

// The bytes of a part of a file.
pub fn part<W: Write>(out: &mut W, name: &[u8], bytes: &[u8]) -> io::Result<()> {
    out.write_all(name)?;
    out.write_all(b":")?;
    for x in bytes {
        write!(out, " {x}")?;
    }
    writeln!(out)
}

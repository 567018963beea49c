// The record lookup: an operator's 36 bytes; no bytes for a number without a record, or for a refused file.
use crate::show;
use record_lookup::operator;
use std::io;
use std::io::Write;

// The record of operator o of the task Q.
fn of_q<W: Write>(out: &mut W, name: &[u8], o: usize) -> io::Result<()> {
    let mut file = [0u8; 186];
    stand::q(&mut file, 5);
    show::part(out, name, operator(&file, o))
}

// The record of operator 0 of Q with a variable of 17 values, which the file check refuses.
fn of_a_refused_file<W: Write>(out: &mut W, name: &[u8]) -> io::Result<()> {
    let mut file = [0u8; 186];
    stand::q(&mut file, 5);
    stand::set8(&mut file, 28, 17);
    show::part(out, name, operator(&file, 0))
}

// All of them.
pub fn all<W: Write>(out: &mut W) -> io::Result<()> {
    of_q(out, b"Q, operator 0", 0)?;
    of_q(out, b"Q, operator 3, the last", 3)?;
    of_q(out, b"Q, operator 4", 4)?;
    of_q(out, b"Q, operator 65536", 65536)?;
    of_a_refused_file(out, b"Q with 17 values, operator 0")
}

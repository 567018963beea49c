// The walk: the stand's cases, and the ends of its ranges.
use crate::show;
use std::io;
use std::io::Write;

// Walks over the task P with a bound.
fn over_p<W: Write>(out: &mut W, name: &[u8], bound: u16, plan: &[u8]) -> io::Result<()> {
    let mut file = [0u8; 164];
    stand::p(&mut file, bound);
    show::walked(out, name, &file, plan)
}

// Walks over the task Q with a bound.
fn over_q<W: Write>(out: &mut W, name: &[u8], bound: u16, plan: &[u8]) -> io::Result<()> {
    let mut file = [0u8; 186];
    stand::q(&mut file, bound);
    show::walked(out, name, &file, plan)
}

// Walks over the plain task, whose operator 1 has an effect on a variable without a precondition.
fn over_plain<W: Write>(out: &mut W, name: &[u8], plan: &[u8]) -> io::Result<()> {
    let mut file = [0u8; 116];
    stand::plain(&mut file);
    show::walked(out, name, &file, plan)
}

// 5000 steps of operator 0, which costs 1 and can always be applied.
fn five_thousand<W: Write>(out: &mut W) -> io::Result<()> {
    let mut file = [0u8; 66];
    stand::header(&mut file, 1, 1, 0, 4095);
    stand::variables(&mut file, 1, 2);
    stand::operator(&mut file, 30, b"\x01\x00\x00\x01", b"\x00\x01");
    let plan = [0u8; 10000];
    show::walked(out, b"5000 steps", &file, &plan)
}

// P: the starred walks, and an odd number of bytes.
fn over_the_stand<W: Write>(out: &mut W) -> io::Result<()> {
    over_p(out, b"P 2, an odd number of bytes", 2, b"\x03")?;
    over_p(out, b"P 2, walk 3", 2, b"\x03\x00")?;
    over_p(out, b"P 2, walk 256", 2, b"\x00\x01")?;
    over_p(out, b"P 2, walk 1 1", 2, b"\x01\x00\x01\x00")?;
    over_p(out, b"P 1, walk 1 1", 1, b"\x01\x00\x01\x00")?;
    over_p(out, b"P 1, walk 1 2", 1, b"\x01\x00\x02\x00")?;
    over_p(out, b"P 2, walk 1 2", 2, b"\x01\x00\x02\x00")?;
    over_p(out, b"P 0, no steps", 0, b"")
}

// Q at the bound and above it, and effects without preconditions.
fn over_others<W: Write>(out: &mut W) -> io::Result<()> {
    over_q(out, b"Q 5, walk 0", 5, b"\x00\x00")?;
    over_q(out, b"Q 4, walk 0", 4, b"\x00\x00")?;
    over_q(out, b"Q 4, walk 1 2", 4, b"\x01\x00\x02\x00")?;
    over_q(out, b"Q 4, walk 3", 4, b"\x03\x00")?;
    over_plain(out, b"plain, no steps", b"")?;
    over_plain(out, b"plain, walk 1", b"\x01\x00")?;
    over_plain(out, b"plain, walk 0", b"\x00\x00")?;
    over_plain(out, b"plain, walk 0 1", b"\x00\x00\x01\x00")
}

// All of them.
pub fn all<W: Write>(out: &mut W) -> io::Result<()> {
    show::walked(out, b"walk over a refused file", b"BPT1", b"")?;
    over_the_stand(out)?;
    over_others(out)?;
    five_thousand(out)
}

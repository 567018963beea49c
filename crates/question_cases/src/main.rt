// The question's cases, one to a line of the input: its name, then a digit for each value of the state, each cost, steps, set and wanted set
// of the lists of pairs, and each bit, low child and high child of the node lists, then the count of entries and the number of pairs. It
// asks them of the stand's P with the bound 2, and prints each name with the answer.
#![tactic(auto)]

ghost use Rattle.std.specs.Prelude.{◌≤◌, length};

use diagrams::NodeView;
use input::read_full;
use question::{Pairs, Place, question};
use refusal::Refusal;
use std::io;
use std::io::Write;
use task::bytes::byte;

// The most numbers of a list.
const WIDEST: usize = 8;

// The most bytes that are read.
const MOST_BYTES: usize = 4096;

// An answer, to the line's end.
fn show<W: Write>(out: &mut W, answer: Result<Option<Place>, Refusal>) -> io::Result<()> {
    match answer {
        Ok(Some(place)) => writeln!(out, ": cost {} steps {}", place.cost, place.steps),
        Ok(None) => writeln!(out, ": not reached"),
        Err(refusal) => writeln!(out, ": {refusal}"),
    }
}

// What stands from a place on, or nothing.
fn from(line: &[u8], at: usize) -> &[u8] {
    line.get(at..).unwrap_or(&[])
}

// The digit at a place, as a number.
fn digit(line: &[u8], at: usize) -> u8
    ensures { result ≤ 9 }
{
    (byte(line, at).saturating_sub(48) % 10) as u8
}

// The digits at the front, as many as there is room for, put at the front of the room; and what stands behind them and one byte more.
fn digits<'a, 'b, T: From<u8> + Drop>(room: &'a mut [T], line: &'b [u8]) -> (&'a [T], &'b [u8])
    ensures { length result.0.now ≤ length room.old }
{
    let end = line.iter().position(|x| !x.is_ascii_digit());
    let count = end.unwrap_or(line.len()).min(room.len());
    for (place, digit) in room.iter_mut().zip(line) {
        *place = T::from(digit.saturating_sub(b'0'));
    }
    let (list, _) = room.split_at(count);
    (list, from(line, count + 1))
}

// The answer to a case, whose state, lists of pairs, node lists, count of entries and number of pairs stand one behind the other.
fn asked(file: &[u8], text: &[u8]) -> Result<Option<Place>, Refusal> {
    let mut values = [0u8; WIDEST];
    let mut costs = [0u32; WIDEST];
    let mut steps = [0u32; WIDEST];
    let mut sets = [0u32; WIDEST];
    let mut wanted = [0u32; WIDEST];
    let mut bit = [0u32; WIDEST];
    let mut low = [0u32; WIDEST];
    let mut high = [0u32; WIDEST];
    let (state, text) = digits(&mut values, text);
    let (costs, text) = digits(&mut costs, text);
    let (steps, text) = digits(&mut steps, text);
    let (sets, text) = digits(&mut sets, text);
    let (wanted, text) = digits(&mut wanted, text);
    let (bit, text) = digits(&mut bit, text);
    let (low, text) = digits(&mut low, text);
    let (high, text) = digits(&mut high, text);
    let pairs = Pairs {
        costs,
        steps,
        sets,
        wanted,
        count: usize::from(digit(text, 2)),
    };
    let nodes = NodeView {
        bit,
        low,
        high,
        count: usize::from(digit(text, 0)),
    };
    question(file, state, pairs, nodes)
}

// One case: its name, up to the colon, and the answer.
fn case<W: Write>(out: &mut W, file: &[u8], line: &[u8]) -> io::Result<()> {
    let end = line.iter().position(|x| *x == b':').unwrap_or(line.len());
    out.write_all(&line[..end])?;
    show(out, asked(file, from(line, end + 2)))
}

fn main(rt: HostRuntime) -> io::Result<()> {
    let file =
        b"\x42\x50\x54\x31\x02\x00\x03\x00\x02\x00\x02\x00\x1c\x00\x00\x00\x20\x00\x00\x00\x8c\x00\x00\x00\xa4\x00\x00\x00\x02\x00\x02\x00\x01\x00\x02\x01\x00\x00\x01\x00\x00\x00\x00\x00\x00\x00\x00\x00\x00\x00\x00\x00\x01\x01\x00\x00\x00\x00\x00\x00\x00\x00\x00\x00\x00\x00\x00\x00\x01\x00\x02\x01\x00\x00\x01\x00\x00\x00\x00\x00\x00\x00\x00\x00\x00\x00\x00\x00\x00\x01\x00\x00\x00\x00\x00\x00\x00\x00\x00\x00\x00\x00\x00\x00\x01\x00\x02\x01\x00\x01\x01\x00\x00\x00\x00\x00\x00\x00\x00\x00\x00\x00\x00\x00\x01\x01\x00\x00\x00\x00\x00\x00\x00\x00\x00\x00\x00\x00\x00\x00\x02\x00\x01\x00\x00\x01\x00\x00\x00\x00\x00\x00\x01\x00\x02\x00\x00\x01\x01\x01\x00\x00\x00\x00";
    let mut out = io::writer(&rt);
    let mut buffer = [0u8; MOST_BYTES];
    let n = read_full(&mut rt.reader(), &mut buffer);
    let text = &buffer[..n];
    let mut start = 0;
    for i in 0..n {
        if text[i] == b'\n' {
            case(&mut out, file, &text[start..i])?;
            start = i + 1;
        }
    }
    Ok(())
}

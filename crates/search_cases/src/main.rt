// The stand cases of the search, run: figures and plans, lists of exact length and one less, free moves, ceilings, and the cases on which a
// faulty planner would still hand over a list that runs. Each answer stands on a line behind the case's name, and is compared with the file stdout.
// Lists of 1,048,577 entries are lent from C (tests/c/supervisor.c): three of them are more than a program's stack holds.
#![tactic(auto)]

mod show;

use search::search;
use std::io;
use std::io::Write;

// The entries of each list, of which a case lends the first few.
const ROOM: usize = 256;

// How many entries are lent of each list.
#[derive(Clone, Copy)]
struct Lengths {
    costs: u8,
    steps: u8,
    sets: u8,
    wanted: u8,
    bit: u8,
    low: u8,
    high: u8,
    ubit: u8,
    ulow: u8,
    uhigh: u8,
    plan: u8,
}

// Lists of pairs of one length, node lists of one length, and utility lists of one length.
fn equal(pairs: u8, nodes: u8, utilities: u8, plan: u8) -> Lengths {
    Lengths {
        costs: pairs,
        steps: pairs,
        sets: pairs,
        wanted: pairs,
        bit: nodes,
        low: nodes,
        high: nodes,
        ubit: utilities,
        ulow: utilities,
        uhigh: utilities,
        plan,
    }
}

// Searches in lists of these lengths, with working lists of its own.
fn searched<W: Write>(out: &mut W, name: &str, file: &[u8], n: Lengths) -> io::Result<()> {
    let mut costs = [0u32; ROOM];
    let mut steps = [0u32; ROOM];
    let mut sets = [0u32; ROOM];
    let mut wanted = [0u32; ROOM];
    let mut bit = [0u32; ROOM];
    let mut low = [0u32; ROOM];
    let mut high = [0u32; ROOM];
    let mut ubit = [0u32; ROOM];
    let mut ulow = [0u32; ROOM];
    let mut uhigh = [0u32; ROOM];
    let mut heads = [0u32; ROOM];
    let mut chain = [0u32; ROOM];
    let mut memo = [0u32; ROOM];
    let mut plan = [0u16; ROOM];
    let plan = &mut plan[..n.plan as usize];
    let answer = search(
        file,
        &mut costs[..n.costs as usize],
        &mut steps[..n.steps as usize],
        &mut sets[..n.sets as usize],
        &mut wanted[..n.wanted as usize],
        &mut bit[..n.bit as usize],
        &mut low[..n.low as usize],
        &mut high[..n.high as usize],
        &mut ubit[..n.ubit as usize],
        &mut ulow[..n.ulow as usize],
        &mut uhigh[..n.uhigh as usize],
        &mut heads,
        &mut chain,
        &mut memo,
        plan,
    );
    show::searched(out, name, plan, answer)
}

// Searches over the task P with a bound.
fn over_p<W: Write>(out: &mut W, name: &str, bound: u16, n: Lengths) -> io::Result<()> {
    let mut file = [0u8; 164];
    stand::p(&mut file, bound);
    searched(out, name, &file, n)
}

// Searches over the task Q with a bound, in lists that are long enough.
fn over_q<W: Write>(out: &mut W, name: &str, bound: u16) -> io::Result<()> {
    let mut file = [0u8; 186];
    stand::q(&mut file, bound);
    searched(out, name, &file, equal(3, 8, 4, 1))
}

// One variable of three values from `start`, 7 for value 2, and an operator without preconditions that gives 2.
fn whatever_it_was<W: Write>(out: &mut W, name: &str, start: u8) -> io::Result<()> {
    let mut file = [0u8; 78];
    stand::header(&mut file, 1, 1, 1, 1);
    stand::set8(&mut file, 28, 3);
    stand::set8(&mut file, 29, start);
    stand::operator(&mut file, 30, b"\x01\x00\x00\x01", b"\x00\x02");
    stand::copy(&mut file, 66, b"\x07\x00\x01\x00\x00\x02");
    searched(out, name, &file, equal(2, 7, 4, 1))
}

// One variable of three values from 0, and 7 for value 2: for nothing from 0 to 1, then from 1 to 2 at the cost `on`, and from 0 to 2 at
// the cost 1.
fn by_a_free_move<W: Write>(out: &mut W, name: &str, on: u8) -> io::Result<()> {
    let mut file = [0u8; 150];
    stand::header(&mut file, 1, 3, 1, 1);
    stand::set8(&mut file, 28, 3);
    stand::operator(&mut file, 30, b"\x00\x00\x01\x01\x00\x00", b"\x00\x01");
    stand::operator(&mut file, 66, b"\x00\x00\x01\x01\x00\x01", b"\x00\x02");
    stand::set8(&mut file, 66, on);
    stand::operator(&mut file, 102, b"\x01\x00\x01\x01\x00\x00", b"\x00\x02");
    stand::copy(&mut file, 138, b"\x07\x00\x01\x00\x00\x02");
    searched(out, name, &file, equal(255, 255, 255, 255))
}

// One variable of three values from 0, a move of cost 1 from each to the next, and a weight for each: only one of the terms can hold.
fn worth<W: Write>(
    out: &mut W,
    name: &str,
    first: u8,
    second: u8,
    third: u8,
    bound: u16,
) -> io::Result<()> {
    let mut file = [0u8; 138];
    stand::header(&mut file, 1, 2, 3, bound);
    stand::set8(&mut file, 28, 3);
    stand::operator(&mut file, 30, b"\x01\x00\x01\x01\x00\x00", b"\x00\x01");
    stand::operator(&mut file, 66, b"\x01\x00\x01\x01\x00\x01", b"\x00\x02");
    stand::copy(&mut file, 102, b"\x00\x00\x01\x00\x00\x00");
    stand::set8(&mut file, 102, first);
    stand::copy(&mut file, 114, b"\x00\x00\x01\x00\x00\x01");
    stand::set8(&mut file, 114, second);
    stand::copy(&mut file, 126, b"\x00\x00\x01\x00\x00\x02");
    stand::set8(&mut file, 126, third);
    searched(out, name, &file, equal(255, 255, 255, 255))
}

// P with each bound, in lists longer than needed.
fn bounds<W: Write>(out: &mut W) -> io::Result<()> {
    over_p(out, "P 0, search", 0, equal(255, 255, 255, 255))?;
    over_p(out, "P 1, search", 1, equal(255, 255, 255, 255))?;
    over_p(out, "P 2, search", 2, equal(255, 255, 255, 255))
}

// 13 to 15 and 23: lists of exact length, one of them too short by an entry, and the first of two that are.
fn short_lists<W: Write>(out: &mut W) -> io::Result<()> {
    over_p(
        out,
        "P 1, 8 node entries, all lists of exact length",
        1,
        equal(2, 8, 6, 1),
    )?;
    over_p(out, "P 1, 1 entry for pairs", 1, equal(1, 8, 6, 1))?;
    over_p(out, "P 1, no entry for pairs", 1, equal(0, 8, 6, 1))?;
    over_p(out, "P 1, 5 utility entries", 1, equal(2, 8, 5, 1))?;
    over_p(out, "P 1, 7 node entries", 1, equal(2, 7, 6, 1))?;
    over_p(out, "P 1, plan list of 0", 1, equal(2, 8, 6, 0))?;
    over_p(
        out,
        "P 1, 5 utility entries, 7 node entries",
        1,
        equal(2, 7, 5, 1),
    )?;
    over_p(
        out,
        "P 1, 7 node entries, plan list of 0",
        1,
        equal(2, 7, 6, 0),
    )?;
    over_p(
        out,
        "P 1, 5 utility entries, 1 entry for pairs",
        1,
        equal(1, 8, 5, 1),
    )?;
    over_p(
        out,
        "P 1, 1 entry for pairs, plan list of 0",
        1,
        equal(1, 8, 6, 0),
    )?;
    over_p(
        out,
        "P 1, 1 node entry, no entry for pairs",
        1,
        equal(0, 1, 6, 1),
    )?;
    over_p(
        out,
        "P 1, 2 node entries, no entry for pairs",
        1,
        equal(0, 2, 6, 1),
    )?;
    over_p(
        out,
        "P 1, 2 node entries, 1 entry for pairs",
        1,
        equal(1, 2, 6, 1),
    )
}

// 12: one of the four lists of pairs, of the three node lists, or of the three utility lists, of another length; and it before 13.
fn unequal_lists<W: Write>(out: &mut W) -> io::Result<()> {
    let exact = equal(2, 8, 6, 1);
    over_p(out, "P 1, costs shorter", 1, Lengths { costs: 1, ..exact })?;
    over_p(out, "P 1, steps longer", 1, Lengths { steps: 3, ..exact })?;
    over_p(out, "P 1, sets shorter", 1, Lengths { sets: 1, ..exact })?;
    over_p(
        out,
        "P 1, wanted sets longer",
        1,
        Lengths { wanted: 3, ..exact },
    )?;
    over_p(out, "P 1, bits shorter", 1, Lengths { bit: 7, ..exact })?;
    over_p(
        out,
        "P 1, low children shorter",
        1,
        Lengths { low: 7, ..exact },
    )?;
    over_p(
        out,
        "P 1, high children longer",
        1,
        Lengths { high: 9, ..exact },
    )?;
    over_p(
        out,
        "P 1, utility bits longer",
        1,
        Lengths { ubit: 7, ..exact },
    )?;
    over_p(
        out,
        "P 1, utility low children longer",
        1,
        Lengths { ulow: 7, ..exact },
    )?;
    over_p(
        out,
        "P 1, utility high children shorter",
        1,
        Lengths { uhigh: 5, ..exact },
    )?;
    let few = equal(2, 8, 5, 1);
    over_p(
        out,
        "P 1, bits shorter, 5 utility entries",
        1,
        Lengths { bit: 7, ..few },
    )
}

// The faults that still produce a runnable list. With Q, closing a state when it is first generated would give operator 0 at cost 5,
// dictionary order before fewest steps operators 1 and 2, and a bound read as strict no steps with the bound 4. An old value that mattered
// would leave a case from 0 or 1 without a step.
fn faults<W: Write>(out: &mut W) -> io::Result<()> {
    over_q(out, "Q 5, search", 5)?;
    over_q(out, "Q 4, search", 4)?;
    over_q(out, "Q 3, search", 3)?;
    whatever_it_was(out, "an effect without a precondition, from 0", 0)?;
    whatever_it_was(out, "an effect without a precondition, from 1", 1)?;
    whatever_it_was(out, "an effect without a precondition, from 2", 2)
}

// Free moves: two of them cost less than one step at the cost 1; a free move before a step costs as much as the step alone, in more steps.
fn free_moves<W: Write>(out: &mut W) -> io::Result<()> {
    by_a_free_move(out, "two free moves", 0)?;
    by_a_free_move(out, "a free move and a step, or one step", 1)
}

// Where the search stops: no pair is made after the first that attains the ceiling, which is the greatest weight and not the sum.
fn ceilings<W: Write>(out: &mut W) -> io::Result<()> {
    worth(out, "the start attains the ceiling", 5, 3, 2, 2)?;
    worth(out, "a later pair attains the ceiling", 1, 5, 2, 2)?;
    worth(out, "two pairs attain the ceiling", 1, 5, 5, 2)?;
    worth(out, "the last pair attains the ceiling", 1, 2, 5, 2)?;
    worth(out, "no pair attains the ceiling", 1, 2, 5, 1)?;
    worth(out, "weights of 0", 0, 0, 0, 2)
}

fn main(rt: HostRuntime) -> io::Result<()> {
    let mut out = io::writer(&rt);
    searched(
        &mut out,
        "search over a refused file",
        b"BPT1",
        equal(0, 0, 0, 0),
    )?;
    bounds(&mut out)?;
    short_lists(&mut out)?;
    unequal_lists(&mut out)?;
    faults(&mut out)?;
    free_moves(&mut out)?;
    ceilings(&mut out)
}

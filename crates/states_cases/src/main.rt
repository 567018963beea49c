// The cases of the engine that lists states, run: figures, plans, and every state with its place, in the list's order, which no contract
// promises; lists of exact length, one entry less and more; working lists of many lengths and contents; free moves, and the cases on which a
// faulty planner would still hand over a list that runs. Each answer stands on a line behind the case's name, and is compared with the file
// stdout.
#![tactic(auto)]

mod show;

use show::Left;
use states::list_states;
use std::io;
use std::io::Write;

// The entries of each list, of which a case lends the first few.
const ROOM: usize = 256;

// How many entries are lent of each list.
#[derive(Clone, Copy)]
struct Lengths {
    states: u8,
    costs: u8,
    steps: u8,
    plan: u8,
}

// Lists of states of one length.
fn equal(states: u8, plan: u8) -> Lengths {
    Lengths {
        states,
        costs: states,
        steps: states,
        plan,
    }
}

// The working lists: their lengths, and the greatest number that stands in them.
#[derive(Clone, Copy)]
struct Working {
    heads: u8,
    links: u8,
    most: u32,
}

// Longer than needed, with numbers of every size.
const AMPLE: Working = Working {
    heads: 255,
    links: 255,
    most: u32::MAX,
};

// Short enough to be shown.
const FEW: Working = Working {
    heads: 3,
    links: 2,
    most: 9,
};

// The number up to `most` that follows x in the noise.
fn after(x: u32, most: u32) -> u32 {
    ((7 * x as usize + 3) % (most as usize + 1)) as u32
}

// Fills a list with numbers up to `most`.
fn noise(list: &mut [u32], most: u32) {
    let mut x: u32 = 2654435769;
    for number in list.iter_mut() {
        x = after(x, most);
        *number = x;
    }
}

// Lists states in lists of these lengths, with working lists of its own. What stands in them before are no states and costs of a task, and the
// costs look like marked ones.
fn listed<W: Write>(
    out: &mut W,
    name: &str,
    file: &[u8],
    n: Lengths,
    w: Working,
) -> io::Result<()> {
    let mut states = [500u64; ROOM];
    let mut costs = [5000u32; ROOM];
    let mut steps = [600u32; ROOM];
    let mut heads = [0u32; ROOM];
    let mut links = [0u32; ROOM];
    let mut plan = [700u16; ROOM];
    noise(&mut heads, w.most);
    noise(&mut links, w.most);
    let states = &mut states[..n.states as usize];
    let costs = &mut costs[..n.costs as usize];
    let steps = &mut steps[..n.steps as usize];
    let heads = &mut heads[..w.heads as usize];
    let links = &mut links[..w.links as usize];
    let plan = &mut plan[..n.plan as usize];
    let answer = list_states(file, states, costs, steps, heads, links, plan);
    let left = Left {
        states,
        costs,
        steps,
        heads,
        links,
        plan,
    };
    show::listed(out, name, left, answer)
}

// The task P with a bound, in lists of these lengths.
fn p_with<W: Write>(out: &mut W, name: &str, bound: u16, n: Lengths, w: Working) -> io::Result<()> {
    let mut file = [0u8; 164];
    stand::p(&mut file, bound);
    listed(out, name, &file, n, w)
}

fn over_p<W: Write>(out: &mut W, name: &str, bound: u16, states: u8, plan: u8) -> io::Result<()> {
    p_with(out, name, bound, equal(states, plan), AMPLE)
}

// The task Q with a bound.
fn over_q<W: Write>(out: &mut W, name: &str, bound: u16, states: u8, plan: u8) -> io::Result<()> {
    let mut file = [0u8; 186];
    stand::q(&mut file, bound);
    listed(out, name, &file, equal(states, plan), AMPLE)
}

// P with the bound 1 and a byte changed, and lists of states of which the costs may be longer.
fn damaged<W: Write>(out: &mut W, name: &str, at: usize, x: u8, costs: u8) -> io::Result<()> {
    let mut file = [0u8; 164];
    stand::p(&mut file, 1);
    stand::set8(&mut file, at, x);
    let n = Lengths {
        states: 3,
        costs,
        steps: 3,
        plan: 1,
    };
    listed(out, name, &file, n, FEW)
}

// One variable of three values from `start`, 7 for value 2, and an operator without preconditions that gives 2.
fn whatever_it_was<W: Write>(out: &mut W, name: &str, start: u8, states: u8) -> io::Result<()> {
    let mut file = [0u8; 78];
    stand::header(&mut file, 1, 1, 1, 1);
    stand::set8(&mut file, 28, 3);
    stand::set8(&mut file, 29, start);
    stand::operator(&mut file, 30, b"\x01\x00\x00\x01", b"\x00\x02");
    stand::copy(&mut file, 66, b"\x07\x00\x01\x00\x00\x02");
    listed(out, name, &file, equal(states, 1), AMPLE)
}

// One variable of three values from 0, and 7 for value 2: from 0 to 1 at the cost `first`, then from 1 to 2 at the cost `second`, or from 0
// to 2 at the cost `direct`.
fn two_ways<W: Write>(
    out: &mut W,
    name: &str,
    first: u8,
    second: u8,
    direct: u8,
    bound: u16,
) -> io::Result<()> {
    let mut file = [0u8; 150];
    stand::header(&mut file, 1, 3, 1, bound);
    stand::set8(&mut file, 28, 3);
    stand::operator(&mut file, 30, b"\x00\x00\x01\x01\x00\x00", b"\x00\x01");
    stand::set8(&mut file, 30, first);
    stand::operator(&mut file, 66, b"\x00\x00\x01\x01\x00\x01", b"\x00\x02");
    stand::set8(&mut file, 66, second);
    stand::operator(&mut file, 102, b"\x00\x00\x01\x01\x00\x00", b"\x00\x02");
    stand::set8(&mut file, 102, direct);
    stand::copy(&mut file, 138, b"\x07\x00\x01\x00\x00\x02");
    listed(out, name, &file, equal(3, 2), AMPLE)
}

// One variable of five values from 0: to 1 and to 2, from 2 to 3 and from 1 to 4, each at the cost 1, and 5 for 3 as for 4.
fn twins<W: Write>(out: &mut W, name: &str) -> io::Result<()> {
    let mut file = [0u8; 198];
    stand::header(&mut file, 1, 4, 2, 2);
    stand::set8(&mut file, 28, 5);
    stand::operator(&mut file, 30, b"\x01\x00\x01\x01\x00\x00", b"\x00\x01");
    stand::operator(&mut file, 66, b"\x01\x00\x01\x01\x00\x00", b"\x00\x02");
    stand::operator(&mut file, 102, b"\x01\x00\x01\x01\x00\x02", b"\x00\x03");
    stand::operator(&mut file, 138, b"\x01\x00\x01\x01\x00\x01", b"\x00\x04");
    stand::copy(&mut file, 174, b"\x05\x00\x01\x00\x00\x03");
    stand::copy(&mut file, 186, b"\x05\x00\x01\x00\x00\x04");
    listed(out, name, &file, equal(5, 2), AMPLE)
}

// P and Q with each bound, in lists exactly as long as the states and the plan. Of Q, closing a state when it is first generated would give
// operator 0 at cost 5, dictionary order before fewest steps operators 1 and 2, and a bound read as strict no steps with the bound 4.
fn exact<W: Write>(out: &mut W) -> io::Result<()> {
    over_p(out, "P 0", 0, 1, 0)?;
    over_p(out, "P 1", 1, 3, 1)?;
    over_p(out, "P 2", 2, 4, 2)?;
    over_q(out, "Q 3", 3, 2, 0)?;
    over_q(out, "Q 4", 4, 3, 1)?;
    over_q(out, "Q 5", 5, 3, 1)
}

// The same in longer lists: what stands behind the states and the plan stays.
fn longer<W: Write>(out: &mut W) -> io::Result<()> {
    over_p(out, "P 0, longer lists", 0, 2, 1)?;
    over_p(out, "P 1, longer lists", 1, 5, 3)?;
    over_p(out, "P 2, longer lists", 2, 5, 3)?;
    over_q(out, "Q 3, longer lists", 3, 3, 1)?;
    over_q(out, "Q 4, longer lists", 4, 4, 2)?;
    over_q(out, "Q 5, longer lists", 5, 5, 2)
}

// 24: one entry too few for the states.
fn one_less<W: Write>(out: &mut W) -> io::Result<()> {
    over_p(out, "P 0, no entry", 0, 0, 0)?;
    over_p(out, "P 1, 2 entries", 1, 2, 1)?;
    over_p(out, "P 2, 3 entries", 2, 3, 2)?;
    over_q(out, "Q 3, 1 entry", 3, 1, 0)?;
    over_q(out, "Q 4, 2 entries", 4, 2, 1)?;
    over_q(out, "Q 5, 2 entries", 5, 2, 1)
}

// 15: one entry too few for the steps; and 24 before it.
fn short_plans<W: Write>(out: &mut W) -> io::Result<()> {
    over_p(out, "P 1, plan list of 0", 1, 3, 0)?;
    over_p(out, "P 2, plan list of 1", 2, 4, 1)?;
    over_q(out, "Q 4, plan list of 0", 4, 3, 0)?;
    over_q(out, "Q 5, plan list of 0", 5, 3, 0)?;
    over_p(out, "P 1, 2 entries, plan list of 0", 1, 2, 0)?;
    over_p(out, "P 2, 3 entries, plan list of 1", 2, 3, 1)
}

// P with the bound 1, in lists of these lengths.
fn unequal<W: Write>(out: &mut W, name: &str, n: Lengths) -> io::Result<()> {
    p_with(out, name, 1, n, FEW)
}

// 12: one of the lists of another length; and it before 24 and 15. All lists stay.
fn unequal_lists<W: Write>(out: &mut W) -> io::Result<()> {
    let exact = equal(3, 1);
    unequal(out, "P 1, states longer", Lengths { states: 4, ..exact })?;
    unequal(out, "P 1, costs shorter", Lengths { costs: 2, ..exact })?;
    unequal(out, "P 1, costs longer", Lengths { costs: 4, ..exact })?;
    unequal(out, "P 1, steps shorter", Lengths { steps: 2, ..exact })?;
    unequal(out, "P 1, steps longer", Lengths { steps: 4, ..exact })?;
    let no_plan = equal(3, 0);
    unequal(
        out,
        "P 1, states shorter, plan list of 0",
        Lengths {
            states: 2,
            ..no_plan
        },
    )
}

// 1 to 10; and one of them before 12. All lists stay.
fn refused_files<W: Write>(out: &mut W) -> io::Result<()> {
    listed(out, "a file of 4 bytes", b"BPT1", equal(2, 1), FEW)?;
    damaged(out, "P 1, a wrong letter", 0, 65, 3)?;
    damaged(out, "P 1, a wrong length", 24, 163, 3)?;
    damaged(out, "P 1, the second variable of 1 value", 30, 1, 3)?;
    damaged(out, "P 1, a wrong letter, costs longer", 0, 65, 4)
}

// P with the bound 2, in lists of exact length, with such working lists.
fn working_of<W: Write>(
    out: &mut W,
    name: &str,
    heads: u8,
    links: u8,
    most: u32,
) -> io::Result<()> {
    let w = Working { heads, links, most };
    p_with(out, name, 2, equal(4, 2), w)
}

// Working lists of any length and content: every line is that of P 2.
fn working_lists<W: Write>(out: &mut W) -> io::Result<()> {
    working_of(out, "P 2, no working lists", 0, 0, 0)?;
    working_of(out, "P 2, heads 0, links 4", 0, 4, 4)?;
    working_of(out, "P 2, heads 4, links 0", 4, 0, 4)?;
    working_of(out, "P 2, heads 1, links 1", 1, 1, 4)?;
    working_of(out, "P 2, heads 1, links 4", 1, 4, 4)?;
    working_of(out, "P 2, heads 3, links 1", 3, 1, 4)?;
    working_of(out, "P 2, heads 1, links 3", 1, 3, 4)?;
    working_of(out, "P 2, heads 5, links 7", 5, 7, 4)?;
    working_of(out, "P 2, heads 7, links 3", 7, 3, 4294967295)?;
    working_of(out, "P 2, heads 255, links 255", 255, 255, 0)?;
    working_of(out, "P 2, heads 255, links 3", 255, 3, 4294967295)
}

// An old value that mattered would leave a case from 0 or 1 without a step.
fn effects_alone<W: Write>(out: &mut W) -> io::Result<()> {
    whatever_it_was(out, "an effect without a precondition, from 0", 0, 2)?;
    whatever_it_was(out, "an effect without a precondition, from 1", 1, 2)?;
    whatever_it_was(out, "an effect without a precondition, from 2", 2, 1)
}

// Two free moves cost less than one step; a free move before a step costs as much as the step alone, in more steps. A way of two steps that
// is generated later is cheaper than the direct one, then as cheap, then cheaper with the direct one beyond the bound.
fn ways<W: Write>(out: &mut W) -> io::Result<()> {
    two_ways(out, "two free moves", 0, 0, 1, 1)?;
    two_ways(out, "a free move and a step, or one step", 0, 1, 1, 1)?;
    two_ways(out, "two steps, or a dearer one", 1, 1, 3, 3)?;
    two_ways(out, "two steps, or one as dear as both", 1, 1, 2, 2)?;
    two_ways(out, "two steps, or one beyond the bound", 1, 1, 3, 2)
}

fn main(rt: HostRuntime) -> io::Result<()> {
    let mut out = io::writer(&rt);
    exact(&mut out)?;
    longer(&mut out)?;
    one_less(&mut out)?;
    short_plans(&mut out)?;
    unequal_lists(&mut out)?;
    refused_files(&mut out)?;
    working_lists(&mut out)?;
    effects_alone(&mut out)?;
    ways(&mut out)?;
    twins(
        &mut out,
        "the state listed first is not that of the first plan",
    )
}

// The utility diagrams of the task files on standard input, which stand there one behind the other. For each file three lines that must be
// the same, with memo lists of no number, of one, and of many: the entry count; whether lists of that many entries hold the diagram, and
// lists of one less; a sum over its values at every list of bits; within random sets, the greatest utility and 1, and a sum over the
// states that have it; a sum over the states with permitted values, and the ceiling.
#![tactic(auto)]

ghost use Rattle.std.specs.Prelude.{◌≡◌, true, ◌≤◌, ◌<◌, length, IfOk};
ghost use Rattle.diagrams.specs.Store.{SameLists, table_of};
ghost use Rattle.task.specs.Check.{accepted};
ghost use Rattle.utility_cases.specs.Ready.{EvenLists, Named, Ready};

use diagram_apply::{difference, union};
use diagram_cubes::demand;
use diagrams::{Full, NodeView, Nodes};
use input::read_full;
use std::io;
use std::io::Write;
use task::bytes::le32;
use task::limits::MOST_BITS;
use utility::Utility;
use utility_build::build;
use utility_ceiling::{ceiling, permitted_states};
use utility_greatest::greatest;
use utility_select::select;

// The entries lent.
const LENT: usize = 512;

// The numbers of a long memo.
const MEMO: usize = 8192;

// The random sets that each task is tried with.
const SETS: u32 = 8;

// The modulus and the multiplier of the random numbers (Lehmer's generator).
const PRIME: u64 = 2147483647;

const FACTOR: u64 = 48271;

// The most bytes that are read.
const MOST_BYTES: usize = 4096;

// The bytes of a header.
const HEADER: usize = 28;

// The bits of a state, and those of them by which every list of bits is gone through.
const STATE_BITS: u32 = 64;

const SHOWN_BITS: usize = 12;

// A number, after a space.
fn show<W: Write>(out: &mut W, x: u64) -> io::Result<()> {
    write!(out, " {x}")
}

// Where the state's bits lead from a name: 0 or 1, or the bit of an end value.
fn leaf(nodes: NodeView, name: u32, state: u64) -> u32 {
    let mut a = name;
    for _ in 0..STATE_BITS {
        if a < 2 {
            return a;
        }
        let i = a as usize - 2;
        if nodes.bit.len().min(nodes.low.len()).min(nodes.high.len()) <= i {
            return 0;
        }
        let b = nodes.bit[i];
        if STATE_BITS <= b {
            return b;
        }
        a = if (state >> b) % 2 == 1 {
            nodes.high[i]
        } else {
            nodes.low[i]
        };
    }
    0
}

// The number of lists of n bits, or of SHOWN_BITS where n is more.
fn size(n: usize) -> u64
    ensures { (0 < result) × (result < 8192) }
{
    1 << n.min(SHOWN_BITS)
}

// A sum over where every list of n bits leads, at most SHOWN_BITS.
fn checksum(nodes: NodeView, name: u32, n: usize) -> u64 {
    let mut sum: u64 = 0;
    for state in 0..size(n) {
        sum = (sum * 31 + u64::from(leaf(nodes, name, state))) % 1000003;
    }
    sum
}

// The random number after x.
fn draw(x: u64) -> u64
    ensures { result < 2147483647 }
{
    x % PRIME * FACTOR % PRIME
}

// The set a with a random cube joined to it or, one time in three, taken from it; there are so many states.
fn change(nodes: &mut Nodes, memo: &mut [u32], states: u64, a: u32, x: u64) -> Result<u32, Full>
    requires ready { Ready (table_of nodes.old) memo.old a }
    requires states_nonzero { 0 < states }
    ensures goes { IfOk result (λ name. Ready (table_of nodes.new) memo.new name) }
    ensures lists { SameLists nodes.old nodes.new }
{
    let y = draw(x);
    let cube = demand(nodes, memo, 0, x % states, y % states, 1)?;
    if y / 65536 % 3 == 0 {
        return difference(nodes, memo, a, cube);
    }
    union(nodes, memo, a, cube)
}

// A random set: no state or every state, by turns, and then changed by so many random cubes.
fn random_set(
    nodes: &mut Nodes,
    memo: &mut [u32],
    states: u64,
    cubes: u32,
    seed: u64,
) -> Result<u32, Full>
    requires ready { Ready (table_of nodes.old) memo.old 1 }
    requires states_nonzero { 0 < states }
    ensures goes { IfOk result (λ name. Ready (table_of nodes.new) memo.new name) }
    ensures lists { SameLists nodes.old nodes.new }
{
    let mut name = cubes % 2;
    let mut x = seed;
    for _ in 0..cubes {
        name = change(nodes, memo, states, name, x)?;
        x = draw(draw(x));
    }
    Ok(name)
}

// Within a random set: the greatest utility and 1, 0 where it is empty, and a sum over the states that have it.
fn within<W: Write>(
    out: &mut W,
    sets: &mut Nodes,
    memo: &mut [u32],
    utility: Utility,
    n: usize,
    cubes: u32,
    seed: u64,
) -> io::Result<()>
    requires values { Named utility }
    requires even { EvenLists sets.old }
    ensures lists { SameLists sets.old sets.new }
{
    diagram_memo::begin(memo);
    sets.count = 0;
    let Ok(set) = random_set(sets, memo, size(n), cubes, seed) else {
        return Ok(());
    };
    let top = greatest(sets.view(), utility.nodes, memo, set, utility.root);
    show(out, u64::from(top))?;
    if top == 0 {
        return Ok(());
    }
    let name = select(sets, memo, utility.nodes, top - 1, set, utility.root).unwrap_or(0);
    show(out, checksum(sets.view(), name, n))
}

// The same within sets of no cube, one cube and so on.
fn within_sets<W: Write>(
    out: &mut W,
    sets: &mut Nodes,
    memo: &mut [u32],
    utility: Utility,
    n: usize,
    seed: u64,
) -> io::Result<()>
    requires values { Named utility }
    requires even { EvenLists sets.old }
    ensures lists { SameLists sets.old sets.new }
{
    let x = draw(seed);
    for cubes in 0..SETS {
        within(
            out,
            sets,
            memo,
            utility,
            n,
            cubes,
            draw(x + u64::from(cubes)),
        )?;
    }
    Ok(())
}

// Whether lists of n entries hold the diagram, with a memo of m numbers.
fn fits(file: &[u8], n: usize, m: usize) -> bool
    requires { (accepted file.now ≡ true) × (n ≤ 512) × (m ≤ 8192) }
{
    let mut bit = [0u32; LENT];
    let mut low = [0u32; LENT];
    let mut high = [0u32; LENT];
    let mut heads = [0u32; LENT];
    let mut chain = [0u32; LENT];
    let mut memo = [0u32; MEMO];
    let mut nodes = Nodes {
        bit: &mut bit[..n],
        low: &mut low[..n],
        high: &mut high[..n],
        heads: &mut heads,
        chain: &mut chain,
        count: 0,
    };
    build(file, &mut nodes, &mut memo[..m]).is_ok()
}

// A sum over the states with permitted values, among the lists of n bits.
fn permitted(file: &[u8], n: usize) -> u64
    requires { accepted file.now ≡ true }
{
    let mut bit = [0u32; MOST_BITS];
    let mut low = [0u32; MOST_BITS];
    let mut high = [0u32; MOST_BITS];
    let mut heads = [0u32; MOST_BITS];
    let mut chain = [0u32; MOST_BITS];
    let mut nodes = Nodes {
        bit: &mut bit,
        low: &mut low,
        high: &mut high,
        heads: &mut heads,
        chain: &mut chain,
        count: 0,
    };
    let name = permitted_states(file, &mut nodes);
    checksum(nodes.view(), name, n)
}

// All that is shown of an accepted file.
fn run<W: Write>(
    out: &mut W,
    file: &[u8],
    values: &mut Nodes,
    sets: &mut Nodes,
    memo: &mut [u32],
    seed: u64,
) -> io::Result<()>
    requires file_value { (accepted file.now ≡ true) × (length memo.old ≤ 8192) }
    requires even_values { EvenLists values.old × (length values.old.bit.now ≡ 512) }
    requires even { EvenLists sets.old }
    ensures value_lists { SameLists values.old values.new }
    ensures lists { SameLists sets.old sets.new }
{
    let m = memo.len();
    let Ok(root) = build(file, values, memo) else {
        return Ok(());
    };
    let count = values.count;
    if count == 0 {
        return Ok(());
    }
    let utility = Utility {
        nodes: values.view(),
        root,
    };
    let n = task::coding::bits(file);
    show(out, count as u64)?;
    show(out, u64::from(fits(file, count, m)))?;
    show(out, u64::from(fits(file, count - 1, m)))?;
    show(out, checksum(utility.nodes, root, n))?;
    within_sets(out, sets, memo, utility, n, seed)?;
    show(out, permitted(file, n))?;
    show(out, u64::from(ceiling(file, utility, memo)))
}

// A line for a file, with memo lists of m numbers.
fn case<W: Write>(out: &mut W, file: &[u8], m: usize, seed: u64) -> io::Result<()>
    requires { m ≤ 8192 }
{
    if task_check::accepted(file) {
        let mut value_bit = [0u32; LENT];
        let mut value_low = [0u32; LENT];
        let mut value_high = [0u32; LENT];
        let mut value_heads = [0u32; LENT];
        let mut value_chain = [0u32; LENT];
        let mut values = Nodes {
            bit: &mut value_bit,
            low: &mut value_low,
            high: &mut value_high,
            heads: &mut value_heads,
            chain: &mut value_chain,
            count: 0,
        };
        let mut bit = [0u32; LENT];
        let mut low = [0u32; LENT];
        let mut high = [0u32; LENT];
        let mut heads = [0u32; LENT];
        let mut chain = [0u32; LENT];
        let mut sets = Nodes {
            bit: &mut bit,
            low: &mut low,
            high: &mut high,
            heads: &mut heads,
            chain: &mut chain,
            count: 0,
        };
        let mut memo = [0u32; MEMO];
        run(out, file, &mut values, &mut sets, &mut memo[..m], seed)?;
    }
    writeln!(out)
}

fn main(rt: HostRuntime) -> io::Result<()> {
    let mut out = io::writer(&rt);
    let mut buffer = [0u8; MOST_BYTES];
    let n = read_full(&mut rt.reader(), &mut buffer);
    let mut rest = &buffer[..n];
    let mut seed: u64 = 1;
    while HEADER <= rest.len() {
        let len = le32(rest, 24);
        if len < HEADER || rest.len() < len {
            return Ok(());
        }
        let (file, after) = rest.split_at(len);
        for m in [0, 1, MEMO] {
            case(&mut out, file, m, seed)?;
        }
        rest = after;
        seed = draw(seed);
    }
    Ok(())
}

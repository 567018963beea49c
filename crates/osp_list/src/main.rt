// osp-list: reads a task file from standard input, searches for its best plan in lists of fixed lengths, and prints the listing or the
// refusal.
#![tactic(auto)]

ghost use Rattle.std.specs.Prelude.{◌≤◌, length};
ghost use Rattle.task.specs.Bytes.{Reads};
ghost use Rattle.task.specs.Format.{cost};
ghost use Rattle.record_lookup.specs.Lookup.{operator_part};

use input::read_full;
use record_lookup::operator;
use search::search;
use search_answer::Listing;
use shift_time::time_of;
use std::io;
use std::io::{Read, Write};
use task::records::cost;

// One byte more than a task file may have, so that a longer input is refused for its length.
const MOST_BYTES: usize = 16385;

// The lengths of the lent lists: pairs, node entries, utility entries, memo and plan.
const PAIRS: usize = 4096;

const NODES: usize = 1024;

const UTILITIES: usize = 512;

const MEMO: usize = 24600;

const STEPS: usize = 4096;

// The cost of an operator of the file, from its record.
fn operator_cost(file: &[u8], o: u16) -> usize
    ensures { Reads result (cost (operator_part file.now o)) 65536 }
{
    cost(operator(file, o as usize))
}

// The lines of a plan's steps: number, operator, cost, and cost so far.
fn print_steps<W: Write>(out: &mut W, file: &[u8], plan: &[u16]) -> io::Result<()>
    requires { length plan.now ≤ 4096 }
{
    let mut so_far = 0;
    for (step, operator) in plan.iter().enumerate() {
        let cost = operator_cost(file, *operator);
        so_far += cost;
        writeln!(out, "{step} {operator} {cost} {so_far}")?;
    }
    Ok(())
}

// The listing's figures.
fn print_figures<W: Write>(out: &mut W, found: Listing) -> io::Result<()> {
    let time = time_of(found.cost, found.bound);
    writeln!(out, "utility {} of {}", found.utility, found.ceiling)?;
    writeln!(out, "cost {} of {}", found.cost, found.bound)?;
    writeln!(out, "time {} {} {}", time.minutes, time.units, time.unused)?;
    writeln!(out, "nodes {} {}", found.nodes, found.entries)?;
    writeln!(out, "steps {}", found.steps)
}

// Searches in lists of its own, and prints the listing, or the refusal with its two numbers.
fn run<W: Write>(out: &mut W, file: &[u8]) -> io::Result<()> {
    let mut costs = [0u32; PAIRS];
    let mut steps = [0u32; PAIRS];
    let mut sets = [0u32; PAIRS];
    let mut wanted = [0u32; PAIRS];
    let mut bit = [0u32; NODES];
    let mut low = [0u32; NODES];
    let mut high = [0u32; NODES];
    let mut ubit = [0u32; UTILITIES];
    let mut ulow = [0u32; UTILITIES];
    let mut uhigh = [0u32; UTILITIES];
    let mut heads = [0u32; NODES];
    let mut chain = [0u32; NODES];
    let mut memo = [0u32; MEMO];
    let mut plan = [0u16; STEPS];
    let answer = search(
        file,
        &mut costs,
        &mut steps,
        &mut sets,
        &mut wanted,
        &mut bit,
        &mut low,
        &mut high,
        &mut ubit,
        &mut ulow,
        &mut uhigh,
        &mut heads,
        &mut chain,
        &mut memo,
        &mut plan,
    );
    match answer {
        Ok(found) => {
            print_figures(out, found)?;
            print_steps(out, file, &plan[..found.steps])
        }
        Err(refusal) => writeln!(out, "{refusal}"),
    }
}

// Whether an input has ended: a read that failed, or that finds more, says that it has not.
fn ended<R: Read>(input: &mut R) -> bool {
    let mut one = [0u8; 1];
    matches!(input.read(&mut one), Ok(0))
}

fn main(rt: HostRuntime) -> io::Result<()> {
    let mut input = rt.reader();
    let mut buffer = [0u8; MOST_BYTES];
    let n = read_full(&mut input, &mut buffer);
    if n < MOST_BYTES && !ended(&mut input) {
        return eprintln!(rt; "osp-list: standard input cannot be read");
    }
    run(&mut io::writer(&rt), &buffer[..n])
}

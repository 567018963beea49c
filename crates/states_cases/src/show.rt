// Writes an answer of the engine that lists states, and what it left in the lent lists, on a line behind the case's name.
use refusal::Refusal;
use states_answer::Summary;
use std::fmt::Display;
use std::io;
use std::io::Write;

// The last refusal that leaves all lists as they were.
const LISTS_KEPT: u8 = 12;

// The lent lists, as the engine left them.
#[derive(Clone, Copy)]
pub struct Left<'a> {
    pub states: &'a [u64],
    pub costs: &'a [u32],
    pub steps: &'a [u32],
    pub heads: &'a [u32],
    pub links: &'a [u32],
    pub plan: &'a [u16],
}

// A word, and the numbers of a list behind it.
fn numbers<W: Write, N: Display>(out: &mut W, word: &str, list: &[N]) -> io::Result<()> {
    write!(out, " {word}")?;
    for x in list {
        write!(out, " {x}")?;
    }
    Ok(())
}

// The figures of the plan, and the number of states.
fn figures<W: Write>(out: &mut W, m: Summary) -> io::Result<()> {
    write!(out, "utility {} cost {}", m.utility, m.cost)?;
    write!(out, " of {} steps {}", m.bound, m.steps)?;
    write!(out, " states {}", m.states)
}

// The states with cost and steps, and what stands past so many of them.
fn entries<W: Write>(out: &mut W, left: Left, count: usize) -> io::Result<()> {
    let all = left.states.iter().zip(left.costs).zip(left.steps);
    for (i, ((state, cost), steps)) in all.enumerate() {
        if i == count {
            write!(out, " past")?;
        }
        write!(out, " ({state} {cost} {steps})")?;
    }
    Ok(())
}

// The steps of a plan list, and what stands past so many of them.
fn plan<W: Write>(out: &mut W, list: &[u16], count: usize) -> io::Result<()> {
    write!(out, " plan")?;
    for (i, operator) in list.iter().enumerate() {
        if i == count {
            write!(out, " past")?;
        }
        write!(out, " {operator}")?;
    }
    Ok(())
}

// Every list but the plan list.
fn lists<W: Write>(out: &mut W, left: Left) -> io::Result<()> {
    numbers(out, "states", left.states)?;
    numbers(out, "costs", left.costs)?;
    numbers(out, "steps", left.steps)?;
    numbers(out, "heads", left.heads)?;
    numbers(out, "links", left.links)
}

// The answer; behind it all lists after a refusal up to 12, the plan list after any, and after success what the lists hold.
pub fn listed<W: Write>(
    out: &mut W,
    name: &str,
    left: Left,
    answer: Result<Summary, Refusal>,
) -> io::Result<()> {
    write!(out, "{name}: ")?;
    match answer {
        Ok(m) => {
            figures(out, m)?;
            entries(out, left, m.states)?;
            plan(out, left.plan, m.steps)?;
        }
        Err(refusal) => {
            write!(out, "{refusal}")?;
            if refusal.number() <= LISTS_KEPT {
                lists(out, left)?;
            }
            numbers(out, "plan", left.plan)?;
        }
    }
    writeln!(out)
}

// Writes a search's answer on a line behind the case's name.
use refusal::Refusal;
use search_answer::Listing;
use shift_time::time_of;
use std::io;
use std::io::Write;

// The figures of a listing.
fn figures<W: Write>(out: &mut W, found: Listing) -> io::Result<()> {
    let time = time_of(found.cost, found.bound);
    write!(out, "utility {} of {}", found.utility, found.ceiling)?;
    write!(out, " cost {} of {}", found.cost, found.bound)?;
    write!(out, " time {} {} {}", time.minutes, time.units, time.unused)?;
    write!(out, " nodes {} {}", found.nodes, found.entries)?;
    write!(out, " pairs {}", found.pairs)
}

// The first n steps of a plan, to the line's end.
fn steps<W: Write>(out: &mut W, plan: &[u16], n: usize) -> io::Result<()> {
    if n == 0 {
        return writeln!(out, " no steps");
    }
    write!(out, " plan")?;
    for operator in plan.iter().take(n) {
        write!(out, " {operator}")?;
    }
    writeln!(out)
}

// The search's answer, and the plan that it left.
pub fn searched<W: Write>(
    out: &mut W,
    name: &str,
    plan: &[u16],
    answer: Result<Listing, Refusal>,
) -> io::Result<()> {
    write!(out, "{name}: ")?;
    match answer {
        Ok(found) => {
            figures(out, found)?;
            steps(out, plan, found.steps)
        }
        Err(refusal) => writeln!(out, "{refusal}"),
    }
}

// The answers of check, writer, walk, question, search and the engine that lists states as callers in C get them: the documents' number and
// values, a state's place, or the figures.
#![tactic(auto)]

ghost use Rattle.std.specs.Prelude.{◌≡◌};
ghost use Rattle.refusal.specs.Refusals.{number, place};
ghost use Rattle.task_check.specs.Answers.{answer};
ghost use Rattle.writer.specs.Answers.{numbers as write_numbers};
ghost use Rattle.walk.specs.Answers.{numbers as walk_numbers};
ghost use Rattle.question.specs.Answers.{numbers as question_numbers};
ghost use Rattle.reports.specs.Reported.{reported, placed, check_numbers};
ghost use Rattle.reports.specs.Totals.{totals_with, totals_of};
ghost use Rattle.reports.specs.Tallies.{tally_with, tally_of};

use refusal::Refusal;
use search_answer::Listing;
use shift_time::time_of;
use states_answer::Summary;
use walk::Reached;

// An answer as C gets it: the documents' number, and two values.
#[repr(C)]
#[derive(Clone, Copy, Default)]
pub struct Report {
    pub number: u64,
    pub first: u64,
    pub second: u64,
}

// A refusal: its number and its place.
impl From<Refusal> for Report {
    ghost from_gives = { λ refusal r. reported r ≡ (number refusal, place refusal, 0) };

    // The number and the place.
    fn from(refusal: Refusal) -> Report {
        Report {
            number: refusal.number() as u64,
            first: refusal.place() as u64,
            second: 0,
        }
    }
}

// The file check: 0, or the refusal.
impl From<Result<(), Refusal>> for Report {
    ghost from_gives = { λ told r. reported r ≡ check_numbers (answer told) };

    // All 0, or the refusal's.
    fn from(told: Result<(), Refusal>) -> Report {
        match told {
            Ok(()) => Report::default(),
            Err(refusal) => Report::from(refusal),
        }
    }
}

// The writer: 0 and the length written, or the refusal.
impl From<Result<usize, Refusal>> for Report {
    ghost from_gives = { λ told r. reported r ≡ write_numbers told };

    // The length, or the refusal's.
    fn from(told: Result<usize, Refusal>) -> Report {
        match told {
            Ok(length) => Report {
                number: 0,
                first: length as u64,
                second: 0,
            },
            Err(refusal) => Report::from(refusal),
        }
    }
}

// The walk of a plan: 0, cost and utility, or the refusal.
impl From<Result<Reached, Refusal>> for Report {
    ghost from_gives = { λ told r. reported r ≡ walk_numbers told };

    // Cost and utility, or the refusal's.
    fn from(told: Result<Reached, Refusal>) -> Report {
        match told {
            Ok(end) => Report {
                number: 0,
                first: end.cost as u64,
                second: end.utility as u64,
            },
            Err(refusal) => Report::from(refusal),
        }
    }
}

// What a question reports: a refusal's number and value, or 0 and 0, and 1 with the state's cost and steps where it is reached.
#[repr(C)]
#[derive(Clone, Copy, Default)]
pub struct Place {
    pub number: u64,
    pub value: u64,
    pub reached: u64,
    pub cost: u64,
    pub steps: u64,
}

// The question about one state: its place, or that it is not reached, or the refusal.
impl From<Result<Option<question::Place>, Refusal>> for Place {
    ghost from_gives = { λ told r. placed r ≡ question_numbers told };

    // The place, or all 0, or the refusal's.
    fn from(told: Result<Option<question::Place>, Refusal>) -> Place {
        match told {
            Ok(None) => Place::default(),
            Ok(Some(found)) => Place {
                number: 0,
                value: 0,
                reached: 1,
                cost: found.cost as u64,
                steps: found.steps as u64,
            },
            Err(refusal) => Place {
                number: refusal.number() as u64,
                value: refusal.place() as u64,
                reached: 0,
                cost: 0,
                steps: 0,
            },
        }
    }
}

// What a search reports: a refusal's number and value, or 0, 0 and the figures of the listing.
#[repr(C)]
#[derive(Clone, Copy)]
pub struct Totals {
    pub number: u64,
    pub value: u64,
    pub utility: u64,
    pub ceiling: u64,
    pub cost: u64,
    pub bound: u64,
    pub minutes: u64,
    pub units: u64,
    pub unused: u64,
    pub nodes: u64,
    pub entries: u64,
    pub pairs: u64,
    pub steps: u64,
}

// A number, a value, and the figures of a listing with its time.
fn totals_with(number: u64, value: u64, found: Listing) -> Totals
    ensures { result ≡ totals_with number value found }
{
    let time = time_of(found.cost, found.bound);
    Totals {
        number,
        value,
        utility: found.utility as u64,
        ceiling: found.ceiling as u64,
        cost: found.cost as u64,
        bound: found.bound as u64,
        minutes: time.minutes as u64,
        units: time.units as u64,
        unused: time.unused as u64,
        nodes: found.nodes as u64,
        entries: found.entries as u64,
        pairs: found.pairs as u64,
        steps: found.steps as u64,
    }
}

// The search: 0, 0 and the figures of the listing, or the refusal and no figures.
impl From<Result<Listing, Refusal>> for Totals {
    ghost from_gives = { λ told r. r ≡ totals_of told };

    // The figures, or the refusal's and no figures.
    fn from(told: Result<Listing, Refusal>) -> Totals {
        match told {
            Ok(found) => totals_with(0, 0, found),
            Err(refusal) => totals_with(
                refusal.number() as u64,
                refusal.place() as u64,
                Listing::default(),
            ),
        }
    }
}

// What the engine that lists states reports: a refusal's number and value, or 0, 0 and the figures.
#[repr(C)]
#[derive(Clone, Copy)]
pub struct Tally {
    pub number: u64,
    pub value: u64,
    pub utility: u64,
    pub cost: u64,
    pub bound: u64,
    pub minutes: u64,
    pub units: u64,
    pub unused: u64,
    pub states: u64,
    pub steps: u64,
}

// A number, a value, and the figures with their time.
fn tally_with(number: u64, value: u64, summary: Summary) -> Tally
    ensures { result ≡ tally_with number value summary }
{
    let time = time_of(summary.cost, summary.bound);
    Tally {
        number,
        value,
        utility: summary.utility as u64,
        cost: summary.cost as u64,
        bound: summary.bound as u64,
        minutes: time.minutes as u64,
        units: time.units as u64,
        unused: time.unused as u64,
        states: summary.states as u64,
        steps: summary.steps as u64,
    }
}

// The engine that lists states: 0, 0 and the figures, or the refusal and no figures.
impl From<Result<Summary, Refusal>> for Tally {
    ghost from_gives = { λ told r. r ≡ tally_of told };

    // The figures, or the refusal's and no figures.
    fn from(told: Result<Summary, Refusal>) -> Tally {
        match told {
            Ok(found) => tally_with(0, 0, found),
            Err(refusal) => tally_with(
                refusal.number() as u64,
                refusal.place() as u64,
                Summary::default(),
            ),
        }
    }
}

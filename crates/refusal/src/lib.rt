// What an input is refused for, with the documents' numbers.
#![tactic(auto)]

ghost use Rattle.std.specs.Prelude.{◌≡◌};
ghost use Rattle.refusal.specs.Refusals.{fault_number, number, place};

use std::fmt;

// What is wrong with a step of a plan.
#[derive(Clone, Copy, PartialEq, Eq, Debug)]
pub enum Fault {
    // No such operator.
    Operator,
    // A precondition of it does not hold.
    Precondition,
    // The cost so far is above the bound.
    Bound,
}

// What an input is refused for.
#[derive(Clone, Copy, PartialEq, Eq, Debug)]
pub enum Refusal {
    // The file is shorter than a header.
    FileShort,
    // The file is longer than a file may be.
    FileLong,
    // It does not begin with the letters.
    Letters,
    // The length field is not the file's length.
    FileLength,
    // A count or the bound is out of its range.
    Counts,
    // A section stands in the header or past the file's end, or two overlap.
    Sections,
    // This variable's record is wrong.
    Variable(u16),
    // The variables take more bits than a state may have.
    Bits,
    // This operator's record is wrong.
    Operator(u16),
    // This term's record is wrong.
    Term(u16),
    // Lent lists that go together are not equally long, or too long.
    ListLengths,
    // The utility lists are full.
    UtilitiesFull,
    // The node lists are full.
    NodesFull,
    // The plan list is too short.
    PlanFull,
    // The plan has an odd number of bytes.
    PlanOdd,
    // This step of the plan fails.
    Step { step: usize, fault: Fault },
    // The state has no value, or a wrong one, for a variable.
    State,
    // The lists do not hold what a search leaves.
    Lists,
    // The output list is shorter than the file to be written.
    OutputShort,
    // The lists of pairs are full.
    PairsFull,
    // The lists of states are full.
    StatesFull,
}

impl Fault {
    // The documents' number.
    pub fn number(self) -> u8
        ensures { result ≡ fault_number self }
    {
        match self {
            Fault::Operator => 17,
            Fault::Precondition => 18,
            Fault::Bound => 19,
        }
    }
}

impl Refusal {
    // The documents' number.
    pub fn number(self) -> u8
        ensures { result ≡ number self }
    {
        match self {
            Refusal::FileShort => 1,
            Refusal::FileLong => 2,
            Refusal::Letters => 3,
            Refusal::FileLength => 4,
            Refusal::Counts => 5,
            Refusal::Sections => 6,
            Refusal::Variable(_) => 7,
            Refusal::Bits => 8,
            Refusal::Operator(_) => 9,
            Refusal::Term(_) => 10,
            Refusal::ListLengths => 12,
            Refusal::UtilitiesFull => 13,
            Refusal::NodesFull => 14,
            Refusal::PlanFull => 15,
            Refusal::PlanOdd => 16,
            Refusal::Step { step: _, fault } => fault.number(),
            Refusal::State => 20,
            Refusal::Lists => 21,
            Refusal::OutputShort => 22,
            Refusal::PairsFull => 23,
            Refusal::StatesFull => 24,
        }
    }

    // The number of the record or step that it is about, or 0.
    pub fn place(self) -> usize
        ensures { result ≡ place self }
    {
        match self {
            Refusal::Variable(record) | Refusal::Operator(record) | Refusal::Term(record) => {
                usize::from(record)
            }
            Refusal::Step { step, fault: _ } => step,
            _ => 0,
        }
    }
}

// A refusal as it is printed: its number and its place.
impl fmt::Display for Refusal {
    // Writes both numbers.
    fn fmt<W: fmt::Write>(&self, f: &mut fmt::Formatter<W>) -> fmt::Result {
        write!(f, "refused {} {}", self.number(), self.place())
    }
}

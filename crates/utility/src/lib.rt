// The utility diagram of a task and what the search asks of it: definitions, their laws, and the readers that the walks through a set
// and the utility diagram share.
#![tactic(auto)]

ghost use Rattle.std.specs.Prelude.{◌≡◌, ◌+◌, ◌≤◌, ◌<◌, length, IfSome};
ghost use Rattle.utility.specs.Reading.{SameLengths, end_of, pair_of};

use diagrams::{NodeView, Split};
use std::cmp::Ordering;

// The entry of an end value v has the bit FIRST_END + v.
pub const FIRST_END: u32 = 64;

// The utility diagram of a task: the name `root` in these lists.
#[derive(Clone, Copy)]
pub struct Utility<'a> {
    pub nodes: NodeView<'a>,
    pub root: u32,
}

// The end value that a name of the utility diagram stands for, if it stands for one; the names 0 and 1 count as the value 0.
pub fn end(utility: NodeView, u: u32) -> Option<u32>
    requires { u < length utility.bit.now + 2 }
    ensures value { result ≡ end_of utility.entry.bit.now u }
    ensures small { IfSome result (λ v. v < 4294967232) }
{
    if u < 2 {
        return Some(0);
    }
    utility.bit[u as usize - 2].checked_sub(FIRST_END)
}

// A name of a set and a name of the utility diagram that stands for no end value, parted at the lesser of their bits.
pub fn part(set: NodeView, utility: NodeView, a: u32, u: u32) -> Split
    requires names { (a < length set.bit.now + 2) × (2 ≤ u) × (u < length utility.bit.now + 2) }
    requires lengths { SameLengths set × SameLengths utility }
    ensures { result ≡ pair_of set.entry.bit.now set.entry.low.now set.entry.high.now utility.entry.bit.now utility.entry.low.now utility.entry.high.now a u }
{
    let j = u as usize - 2;
    let c = utility.bit[j];
    if a < 2 {
        return Split {
            bit: c,
            al: a,
            ah: a,
            bl: utility.low[j],
            bh: utility.high[j],
        };
    }
    let i = a as usize - 2;
    let b = set.bit[i];
    match b.cmp(&c) {
        Ordering::Less => Split {
            bit: b,
            al: set.low[i],
            ah: set.high[i],
            bl: u,
            bh: u,
        },
        Ordering::Greater => Split {
            bit: c,
            al: a,
            ah: a,
            bl: utility.low[j],
            bh: utility.high[j],
        },
        Ordering::Equal => Split {
            bit: b,
            al: set.low[i],
            ah: set.high[i],
            bl: utility.low[j],
            bh: utility.high[j],
        },
    }
}

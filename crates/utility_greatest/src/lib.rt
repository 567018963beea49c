// The greatest utility of the states in a set. No node is made.
#![tactic(auto)]

ghost use Rattle.std.specs.Prelude.{◌≡◌, ◌+◌, ◌<◌, length};
ghost use Rattle.diagrams.specs.Store.{Store, view_table};
ghost use Rattle.diagrams.specs.Memo.{Memo, Stamped};
ghost use Rattle.diagram_loops.specs.Stacks.{waiting};
ghost use Rattle.utility_greatest.specs.Greatest.{MostOf, Most, Greatest};
ghost use Rattle.utility_greatest.specs.Walking.{Narrow, Ready, Looked, Sinking, Reaches, Rising, Turned};

use diagram_loops::stack::Stack;
use diagram_loops::{Look, Turn, awaiting};
use diagram_memo::{InUse, keep, recall, slots};
use diagrams::NodeView;

// A walk through a set and the utility diagram, and the stamp and the slots by which the memo has its numbers.
#[derive(Clone, Copy)]
struct Walk<'a> {
    set: NodeView<'a>,
    utility: NodeView<'a>,
    stamp: u32,
    slots: InUse,
}

impl Walk<'_> {
    // What the names, the memo and the lists show of the greatest value and 1, 0 for the empty set: a number, as the memo has them.
    fn look(&self, memo: &[u32], x: u32, y: u32) -> Look
        requires ready { Ready self.now memo.now }
        requires names { (x < self.now.set.count + 2) × (y < self.now.utility.count + 2) }
        ensures { Looked self.now x y result }
    {
        if x == 0 {
            return Look::Known(0);
        }
        if let Some(value) = utility::end(self.utility, y) {
            return Look::Known(value + 1);
        }
        if let Some(number) = recall(memo, self.slots, self.stamp, x, y) {
            return Look::Known(number);
        }
        awaiting(x, y, utility::part(self.set, self.utility, x, y))
    }

    // Down the low sides, until a number is known.
    fn descend(&self, memo: &[u32], stack: &mut Stack, mut x: u32, mut y: u32) -> u32
        requires ready { Ready self.now memo.now }
        requires sinks { Sinking self.now (waiting stack.old) x y }
        requires size { length stack.old.frames ≡ 64 }
        ensures reaches { Reaches self.now (waiting stack.old) (waiting stack.new) x y result }
        ensures size { length stack.new.frames ≡ 64 }
    {
        loop {
            match self.look(memo, x, y) {
                Look::Known(number) => return number,
                Look::Parted(frame) => {
                    stack.push(frame);
                    x = frame.part.al;
                    y = frame.part.bl;
                }
            }
        }
    }

    // Up, as long as it is the high side's number.
    fn ascend(&self, memo: &mut [u32], stack: &mut Stack, mut number: u32) -> Turn
        requires ready { Ready self.now memo.old }
        requires rises { Rising self.now (waiting stack.old) number }
        requires size { length stack.old.frames ≡ 64 }
        ensures ready { Ready self.now memo.new }
        ensures turned { Turned self.now (waiting stack.old) (waiting stack.new) number result }
        ensures size { length stack.new.frames ≡ 64 }
    {
        while let Some(frame) = stack.last() {
            let Some(low) = frame.low() else {
                stack.turn(number);
                return Turn::High(frame.part.ah, frame.part.bh);
            };
            stack.pop();
            number = low.max(number);
            keep(memo, self.slots, self.stamp, frame.a, frame.b, number);
        }
        Turn::Done(number)
    }
}

// A list's numbers have 32 bits. Nothing is done: the lists of a struct do not tell it of themselves.
fn narrow(list: &[u32])
    ensures { Narrow list.now }
{}

// The greatest value, and 1, that the utility diagram named u has within the set named a; 0 for the empty set. It is a number and no Option, since
// the memo's slots hold numbers, and the larger of two is then their max.
pub fn most(set: NodeView, utility: NodeView, memo: &mut [u32], stamp: u32, a: u32, u: u32) -> u32
    requires store { Store (view_table set) × Store (view_table utility) }
    requires a_bound { (a < set.count + 2) × (u < utility.count + 2) }
    requires fact { Stamped (view_table set) memo.old stamp (MostOf (view_table set) (view_table utility)) }
    ensures { Most (view_table set.entry) (view_table utility.entry) memo.new stamp a u result }
{
    let walk = Walk {
        set,
        utility,
        stamp,
        slots: slots(memo),
    };
    narrow(utility.bit);
    let mut stack = Stack::new();
    let mut x = a;
    let mut y = u;
    loop {
        let reached = walk.descend(memo, &mut stack, x, y);
        match walk.ascend(memo, &mut stack, reached) {
            Turn::Done(number) => return number,
            Turn::High(p, q) => {
                x = p;
                y = q;
            }
        }
    }
}

// The same under a fresh stamp.
pub fn greatest(set: NodeView, utility: NodeView, memo: &mut [u32], a: u32, u: u32) -> u32
    requires store { Store (view_table set) × Store (view_table utility) }
    requires a_bound { (a < set.count + 2) × (u < utility.count + 2) }
    requires memo { Memo (view_table set) memo.old }
    ensures { Greatest (view_table set.entry) (view_table utility.entry) memo.new a u result }
{
    let stamp = diagram_stamps::stamp(memo);
    most(set, utility, memo, stamp, a, u)
}

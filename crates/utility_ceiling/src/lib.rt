// The ceiling of a task: the greatest utility of any state whose variables have permitted values. These states are a set, whose diagram has at
// most one node for each bit; it is made in lists of its own, from the last bit up.
#![tactic(auto)]

ghost use Rattle.std.specs.Prelude.{◌≡◌, true, ℕ, suc, ◌+◌, ◌<◌, length};
ghost use Rattle.planning.specs.Ceiling.{ceiling};
ghost use Rattle.diagrams.specs.Tree.{Under};
ghost use Rattle.diagrams.specs.Store.{SameLists, Store, table_of, tree, view_table};
ghost use Rattle.task.specs.Limits.{most_bits};
ghost use Rattle.task.specs.Format.{variables};
ghost use Rattle.task.specs.Check.{accepted};
ghost use Rattle.task.specs.Decode.{sizes, task_of};
ghost use Rattle.utility.specs.Within.{most_t};
ghost use Rattle.utility.specs.Valued.{Valued};
ghost use Rattle.utility_ceiling.specs.Sets.{Behind, bound_t, Adds, From};

use diagram_table::mk;
use diagrams::{NodeView, Nodes, SHORTEST_MEMO};
use task::coding::{bit_offset, width};
use task::header::variables;
use task::limits::MOST_BITS;
use task::records::size;
use utility::Utility;

// Bit b in front of the bits up to a bound, which are named tight. Where the bound has a 1 here, all that follow the variable, named next, stand
// behind a 0; where it has a 0, nothing stands behind a 1.
fn bound_bit(nodes: &mut Nodes, b: u32, one: bool, next: u32, tight: u32) -> u32
    requires { Behind (table_of nodes.old) b next tight }
    ensures adds { let s = table_of nodes.old in
        Adds s (table_of nodes.new) result b (bound_t one b (tree s next) (tree s tight)) }
    ensures lists { SameLists nodes.old nodes.new }
{
    if one {
        return mk(nodes, b, next, tight).unwrap();
    }
    mk(nodes, b, tight, 0).unwrap()
}

// The permitted values of variable v, in front of those of the variables after it, which are named next: from the variable's last bit to its
// first, the bits of its greatest value are a bound.
fn add_variable(file: &[u8], nodes: &mut Nodes, v: usize, next: u32) -> u32
    requires file_value { (accepted file.now ≡ true) × (v < variables file.now) }
    requires from { From (sizes file.now) (table_of nodes.old) next (suc v) }
    ensures from { From (sizes file.now) (table_of nodes.new) result v }
    ensures lists { SameLists nodes.old nodes.new }
{
    let d = size(file, v);
    let first = bit_offset(file, v);
    let mut rest = d - 1;
    let mut tight = next;
    for k in (0..width(d)).rev() {
        tight = bound_bit(nodes, (first + k) as u32, rest % 2 == 1, next, tight);
        rest /= 2;
    }
    tight
}

// The states with permitted values. What the lists hold before does not matter.
pub fn permitted_states(file: &[u8], nodes: &mut Nodes) -> u32
    requires file_value { accepted file.now ≡ true }
    requires bit_len { (length nodes.old.bit.now ≡ most_bits) × (length nodes.old.low.now ≡ most_bits) × (length nodes.old.high.now ≡ most_bits) }
    ensures from { From (sizes file.now) (table_of nodes.new) result 0 }
    ensures lists { SameLists nodes.old nodes.new }
{
    nodes.count = 0;
    let mut name: u32 = 1;
    for v in (0..variables(file)).rev() {
        name = add_variable(file, nodes, v, name);
    }
    name
}

// The greatest value, and 1, that the utility diagram has within the set named a, with a memo of any content.
fn greatest_within(set: NodeView, a: u32, utility: Utility, memo: &mut [u32]) -> u32
    requires store { Store (view_table set) × Store (view_table utility.nodes) }
    requires a_bound { (a < set.count + 2) × (utility.root < utility.nodes.count + 2) }
    requires by_index { (n : ℕ) → Under 64 (tree (view_table set) n) }
    ensures { result ≡ most_t (tree (view_table set.entry) a) (tree (view_table utility.entry.nodes) utility.entry.root) }
{
    diagram_memo::begin(memo);
    diagram_memo::widen(memo, utility.nodes.count);
    utility_greatest::greatest(set, utility.nodes, memo, a, utility.root)
}

// The greatest utility of any state whose variables have permitted values, told from the utility diagram of an accepted file. No node is made; of the
// memo nothing is asked, and it may hold anything afterwards.
pub fn ceiling(file: &[u8], utility: Utility, memo: &mut [u32]) -> u32
    requires file_value { accepted file.now ≡ true }
    requires valued { Valued (task_of file.now) (view_table utility.nodes) utility.root }
    ensures { result ≡ ceiling (task_of file.now) }
{
    let mut bit = [0u32; MOST_BITS];
    let mut low = [0u32; MOST_BITS];
    let mut high = [0u32; MOST_BITS];
    let mut heads = [0u32; MOST_BITS];
    let mut chain = [0u32; MOST_BITS];
    let mut nodes = Nodes {
        bit: &mut bit,
        low: &mut low,
        high: &mut high,
        heads: &mut heads,
        chain: &mut chain,
        count: 0,
    };
    let set = permitted_states(file, &mut nodes);
    // A slot for each entry is enough of the memo, so that a small diagram clears little.
    let used = memo.len().min(SHORTEST_MEMO + 4 * utility.nodes.count);
    greatest_within(nodes.view(), set, utility, &mut memo[..used]) - 1
}

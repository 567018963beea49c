// The tests of the lists that a caller lends: refusals 12 and 21. A number past a list's end is read as 0, so that each test has an
// answer on any lists. Each goes once through what it reads.
#![tactic(auto, using(planning::proofs::Guards::tests), unfolding(crate::specs::Lists::lists_wrong, crate::specs::Lists::pairs_wrong, crate::specs::Lists::name_right, crate::specs::Lists::child_right, crate::specs::Lists::entry_right, crate::specs::Lists::set_right, crate::specs::Lists::listed))]

ghost use Rattle.std.specs.Prelude.{◌≡◌, ◌<◌, get_or};
ghost use Rattle.lent_lists.specs.Lists.{lists_wrong, pairs_wrong, name_right, child_right, entry_right, entries_right, set_right, names_right, listed};

// The most entries that node lists, utility lists, and the lists of pairs may have.
const MOST_ENTRIES: usize = 1048576;

// 12: three lists of these lengths are unequal, or too long.
pub fn lists_wrong(l: usize, m: usize, n: usize) -> bool
    ensures { result ≡ lists_wrong l m n }
{
    l != m || m != n || MOST_ENTRIES < l
}

// 12: four lists of pairs of these lengths are unequal, or too long.
pub fn pairs_wrong(a: usize, b: usize, c: usize, d: usize) -> bool
    ensures { result ≡ pairs_wrong a b c d }
{
    a != b || b != c || c != d || MOST_ENTRIES < a
}

// The number at a place of a list, or 0.
fn number(list: &[u32], at: usize) -> usize
    ensures { result ≡ get_or list.now at 0 }
{
    list.get(at).map_or(0, |x| *x as usize)
}

// The name is 0, 1 or that of an entry below k.
fn name_right(k: usize, name: usize) -> bool
    ensures { result ≡ name_right k name }
{
    name < 2 || name - 2 < k
}

// A child of the entry k: 0, 1 or an earlier entry of a higher bit number.
fn child_right(bit: &[u32], k: usize, child: usize) -> bool
    ensures { result ≡ child_right bit.now k child }
{
    child < 2 || (child - 2 < k && number(bit, k) < number(bit, child - 2))
}

// The entry k of a task of n bits: its bit number and its two children.
fn entry_right(n: usize, bit: &[u32], low: &[u32], high: &[u32], k: usize) -> bool
    ensures { result ≡ entry_right n bit.now low.now high.now k }
{
    number(bit, k) < n
        && child_right(bit, k, number(low, k))
        && child_right(bit, k, number(high, k))
}

// Every entry below the count.
fn entries_right(n: usize, bit: &[u32], low: &[u32], high: &[u32], count: usize) -> bool
    ensures { result ≡ entries_right n bit.now low.now high.now count }
{
    (0..count).all(|k| entry_right(n, bit, low, high, k))
}

// The name of the set of pair i.
fn set_right(sets: &[u32], count: usize, i: usize) -> bool
    ensures { result ≡ set_right sets.now count i }
{
    name_right(count, number(sets, i))
}

// The names of the sets of the first pairs, that many.
fn names_right(sets: &[u32], pairs: usize, count: usize) -> bool
    ensures { result ≡ names_right sets.now pairs count }
{
    (0..pairs).all(|i| set_right(sets, count, i))
}

// 21, for a task of n bits and that many pairs: the lists pass the whole test.
pub fn listed(
    n: usize,
    pairs: usize,
    sets: &[u32],
    bit: &[u32],
    low: &[u32],
    high: &[u32],
    count: usize,
) -> bool
    ensures { result ≡ listed n pairs sets.now bit.now low.now high.now count }
{
    count <= bit.len()
        && entries_right(n, bit, low, high, count)
        && pairs <= sets.len()
        && names_right(sets, pairs, count)
}

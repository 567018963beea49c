// The stand's task files P and Q, and the parts to make others from, written to lent bytes.
#![tactic(auto)]

ghost use Rattle.std.specs.Prelude.{◌≡◌, ◌+◌, ◌<◌, ◌≤◌, length, set, replicate};
ghost use Rattle.task.specs.Cases.{header, file_p, file_q, file_plain};
ghost use Rattle.stand.specs.Bytes.{overlay, put16, put_sizes};

// Writes a byte, if there is such a place.
pub fn set8(file: &mut [u8], at: usize, x: u8)
    ensures { file.new ≡ set file.old at x }
{
    if at < file.len() {
        file[at] = x;
    }
}

// Writes a number of two bytes, low byte first.
#[tactic(auto, unfolding(crate::specs::Bytes::overlay))]
pub fn set16(file: &mut [u8], at: usize, x: u16)
    requires { at < 65536 }
    ensures { file.new ≡ put16 file.old at x }
{
    copy(file, at, &x.to_le_bytes());
}

// Writes bytes from a place on.
pub fn copy(file: &mut [u8], at: usize, bytes: &[u8])
    requires { at < 65536 }
    ensures { file.new ≡ overlay file.old at bytes.now }
{
    for (i, x) in bytes.iter().enumerate() {
        set8(file, at + i, *x);
    }
}

// Gives the first n variables d values each, from byte 28 on; their starting values stay.
pub fn variables(file: &mut [u8], n: usize, d: u8)
    requires { n ≤ 64 }
    ensures { file.new ≡ put_sizes file.old d n 0 }
{
    for v in 0..n {
        set8(file, 28 + 2 * v, d);
    }
}

// Writes an operator's record at a place: cost, counts and preconditions, then the effects.
pub fn operator(file: &mut [u8], at: usize, beginning: &[u8], effects: &[u8])
    requires { at < 60000 }
    ensures { file.new ≡ overlay (overlay file.old at beginning.now) (at + 20) effects.now }
{
    copy(file, at, beginning);
    copy(file, at + 20, effects);
}

// Writes a number of four bytes that is below 65,536.
fn set32(file: &mut [u8], at: usize, x: u16)
    requires { at < 60000 }
    ensures { file.new ≡ put16 (put16 file.old at x) (at + 2) 0 }
{
    set16(file, at, x);
    set16(file, at + 2, 0);
}

// Writes a header whose sections stand one behind the other.
pub fn header(file: &mut [u8], variables: u16, operators: u16, terms: u16, bound: u16)
    requires { (variables ≤ 64) × ((operators ≤ 300) × (terms ≤ 300)) }
    ensures { file.new ≡ overlay file.old 0 (header variables operators terms bound) }
{
    let operators_at = 28 + 2 * variables;
    let terms_at = operators_at + 36 * operators;
    let length = terms_at + 12 * terms;
    copy(file, 0, b"BPT1");
    set16(file, 4, variables);
    set16(file, 6, operators);
    set16(file, 8, terms);
    set16(file, 10, bound);
    set32(file, 12, 28);
    set32(file, 16, operators_at);
    set32(file, 20, terms_at);
    set32(file, 24, length);
}

// The stand's task P: two variables, three operators, two terms.
pub fn p(file: &mut [u8], bound: u16)
    ensures { file.old ≡ replicate 164 0 → file.new ≡ file_p bound }
{
    header(file, 2, 3, 2, bound);
    variables(file, 2, 2);
    operator(file, 32, b"\x01\x00\x02\x01\x00\x00\x01\x00", b"\x01\x01");
    operator(file, 68, b"\x01\x00\x02\x01\x00\x00\x01\x00", b"\x00\x01");
    operator(file, 104, b"\x01\x00\x02\x01\x00\x01\x01\x00", b"\x01\x01");
    copy(file, 140, b"\x02\x00\x01\x00\x00\x01");
    copy(file, 152, b"\x01\x00\x02\x00\x00\x01\x01\x01");
}

// The stand's task Q: one variable of three values, four operators, one term.
pub fn q(file: &mut [u8], bound: u16)
    ensures { file.old ≡ replicate 186 0 → file.new ≡ file_q bound }
{
    header(file, 1, 4, 1, bound);
    variables(file, 1, 3);
    operator(file, 30, b"\x05\x00\x01\x01\x00\x00", b"\x00\x02");
    operator(file, 66, b"\x02\x00\x01\x01\x00\x00", b"\x00\x01");
    operator(file, 102, b"\x02\x00\x01\x01\x00\x01", b"\x00\x02");
    operator(file, 138, b"\x04\x00\x01\x01\x00\x00", b"\x00\x02");
    copy(file, 174, b"\x07\x00\x01\x00\x00\x02");
}

// A task to change bytes of: variables of 3 and 4 values at 28, operators at 32 and 68, a term at 104.
pub fn plain(file: &mut [u8])
    ensures { file.old ≡ replicate 116 0 → file.new ≡ file_plain }
{
    header(file, 2, 2, 1, 5);
    copy(file, 28, b"\x03\x01\x04\x00");
    operator(file, 32, b"\x02\x00\x02\x01\x00\x01\x01\x00", b"\x01\x03");
    operator(file, 68, b"\x01\x00\x00\x01", b"\x00\x00");
    copy(file, 104, b"\x07\x00\x02\x00\x00\x01\x01\x03");
}

// The file check: for each refusal 1 to 10, files that are refused and neighbours that are not.
ghost use Rattle.std.specs.Prelude.{◌<◌, ◌≤◌};

use crate::show;
use std::io;
use std::io::Write;

// The plain task with one byte changed.
fn with_byte<W: Write>(out: &mut W, name: &[u8], at: usize, x: u8) -> io::Result<()> {
    let mut file = [0u8; 116];
    stand::plain(&mut file);
    stand::set8(&mut file, at, x);
    show::checked(out, name, &file)
}

// The plain task with a number of two bytes changed.
fn with_number<W: Write>(out: &mut W, name: &[u8], at: usize, x: u16) -> io::Result<()>
    requires { at < 65536 }
{
    let mut file = [0u8; 116];
    stand::plain(&mut file);
    stand::set16(&mut file, at, x);
    show::checked(out, name, &file)
}

// The plain task without its term: an empty section at a place.
fn with_empty_section<W: Write>(out: &mut W, name: &[u8], at: u16) -> io::Result<()> {
    let mut file = [0u8; 116];
    stand::plain(&mut file);
    stand::set16(&mut file, 8, 0);
    stand::set16(&mut file, 20, at);
    show::checked(out, name, &file)
}

// A variable of d values and nothing else.
fn with_variable<W: Write>(out: &mut W, name: &[u8], d: u8, start: u8) -> io::Result<()> {
    let mut file = [0u8; 30];
    stand::header(&mut file, 1, 0, 0, 0);
    stand::set8(&mut file, 28, d);
    stand::set8(&mut file, 29, start);
    show::checked(out, name, &file)
}

// So many variables, the first of them of 16 values, the others of 2.
fn with_variables<W: Write>(out: &mut W, name: &[u8], n: u16, wide: usize) -> io::Result<()>
    requires { (n ≤ 33) × (wide ≤ 33) }
{
    let mut file = [0u8; 94];
    stand::header(&mut file, n, 0, 0, 0);
    stand::variables(&mut file, 33, 2);
    stand::variables(&mut file, wide, 16);
    show::checked_first(out, name, &file, 28 + 2 * n as usize)
}

// A variable and nothing else, in a file of so many bytes, of which those behind the variable are not read.
fn with_length<W: Write>(out: &mut W, name: &[u8], n: u16) -> io::Result<()> {
    let mut file = [0u8; 16385];
    stand::header(&mut file, 1, 0, 0, 0);
    stand::variables(&mut file, 1, 2);
    stand::set16(&mut file, 24, n);
    show::checked_first(out, name, &file, n as usize)
}

// 1 and 2: the file's length.
fn lengths<W: Write>(out: &mut W) -> io::Result<()> {
    with_length(out, b"no bytes", 0)?;
    with_length(out, b"27 bytes", 27)?;
    with_length(out, b"28 bytes, no room for the variable", 28)?;
    with_length(out, b"30 bytes", 30)?;
    with_length(out, b"16384 bytes", 16384)?;
    with_length(out, b"16385 bytes", 16385)
}

// 3 and 4: letters and length field.
fn letters<W: Write>(out: &mut W) -> io::Result<()> {
    with_byte(out, b"the plain task", 200, 0)?;
    with_byte(out, b"first letter", 0, b'b')?;
    with_byte(out, b"second letter", 1, b'p')?;
    with_byte(out, b"third letter", 2, b't')?;
    with_byte(out, b"fourth letter", 3, b'2')?;
    with_number(out, b"length field one short", 24, 115)?;
    with_number(out, b"length field one long", 24, 117)?;
    with_number(out, b"length field long by 65536", 26, 1)
}

// 5: counts and bound.
fn counts<W: Write>(out: &mut W) -> io::Result<()> {
    with_number(out, b"no variables", 4, 0)?;
    with_variables(out, b"1 variable", 1, 0)?;
    with_variables(out, b"32 variables", 32, 0)?;
    with_variables(out, b"33 variables", 33, 0)?;
    with_number(out, b"256 operators, no room for them", 6, 256)?;
    with_number(out, b"257 operators", 6, 257)?;
    with_number(out, b"256 terms, no room for them", 8, 256)?;
    with_number(out, b"257 terms", 8, 257)?;
    with_number(out, b"bound 4095", 10, 4095)?;
    with_number(out, b"bound 4096", 10, 4096)
}

// 6: sections.
fn sections<W: Write>(out: &mut W) -> io::Result<()> {
    with_number(out, b"a section at byte 27", 12, 27)?;
    with_number(out, b"a section ending one past the file", 20, 105)?;
    with_number(out, b"a section near 4294967296", 22, 65535)?;
    with_number(out, b"sections overlapping by one byte", 12, 29)?;
    with_number(out, b"sections overlapping by a whole record", 12, 104)?;
    with_empty_section(out, b"an empty section at the end", 116)?;
    with_empty_section(out, b"an empty section past the end", 117)?;
    with_empty_section(out, b"an empty section in the header", 27)?;
    with_empty_section(out, b"an empty section inside another", 40)
}

// 7 and 8: variables and bits.
fn variables<W: Write>(out: &mut W) -> io::Result<()> {
    with_variable(out, b"1 value", 1, 0)?;
    with_variable(out, b"2 values", 2, 1)?;
    with_variable(out, b"16 values", 16, 15)?;
    with_variable(out, b"17 values", 17, 0)?;
    with_variable(out, b"starting value 2 of 2", 2, 2)?;
    with_byte(out, b"the second variable of 1 value", 30, 1)?;
    with_variables(out, b"48 bits", 12, 12)?;
    with_variables(out, b"49 bits", 13, 12)
}

// 9: operators.
fn operators<W: Write>(out: &mut W) -> io::Result<()> {
    with_number(out, b"cost 0", 32, 0)?;
    with_number(out, b"cost 4095", 32, 4095)?;
    with_number(out, b"cost 4096", 32, 4096)?;
    with_byte(out, b"9 preconditions", 34, 9)?;
    with_byte(out, b"9 effects", 35, 9)?;
    with_byte(out, b"facts not rising", 38, 0)?;
    with_byte(out, b"a variable that the file lacks", 38, 2)?;
    with_byte(out, b"a value that the variable lacks", 37, 3)?;
    with_byte(out, b"an unused precondition not zero", 40, 1)?;
    with_byte(out, b"an unused effect not zero", 91, 1)?;
    with_byte(out, b"one precondition fewer, its place not zero", 34, 1)?;
    with_byte(out, b"a pair 0, 0 in a used place", 37, 0)
}

// 10: terms.
fn terms<W: Write>(out: &mut W) -> io::Result<()> {
    with_number(out, b"weight 0", 104, 0)?;
    with_number(out, b"weight 65535", 104, 65535)?;
    with_byte(out, b"5 facts", 106, 5)?;
    with_byte(out, b"the zero byte not zero", 107, 1)?;
    with_byte(out, b"a term's facts not rising", 110, 0)?;
    with_byte(out, b"a term's value that the variable lacks", 111, 4)?;
    with_byte(out, b"a term's unused fact not zero", 113, 1)
}

// All of them, in the order of the refusals.
pub fn all<W: Write>(out: &mut W) -> io::Result<()> {
    lengths(out)?;
    letters(out)?;
    counts(out)?;
    sections(out)?;
    variables(out)?;
    operators(out)?;
    terms(out)
}

// The rules for a row of facts.
ghost use Rattle.std.specs.Prelude.{◌≡◌, ◌<◌, ◌≤◌};
ghost use Rattle.task.specs.Check.{names_variable, has_value, rises, used_right, unused_right, fact_right, facts_right};

use task::facts::{fact_value, fact_variable};
use task::header::variables;
use task::records::size;

// In a used place: the variable is one of the file's.
fn names_variable(file: &[u8], facts: &[u8], k: usize) -> bool
    requires { k < 65536 }
    ensures { result ≡ names_variable file.now facts.now k }
{
    fact_variable(facts, k) < variables(file)
}

// The value is one that the variable has.
fn has_value(file: &[u8], facts: &[u8], k: usize) -> bool
    requires { k < 65536 }
    ensures { result ≡ has_value file.now facts.now k }
{
    fact_value(facts, k) < size(file, fact_variable(facts, k))
}

// The variable's number is higher than that of the fact before.
fn rises(facts: &[u8], k: usize) -> bool
    requires { k < 65536 }
    ensures { result ≡ rises facts.now k }
{
    k == 0 || fact_variable(facts, k - 1) < fact_variable(facts, k)
}

// A used place is right.
fn used_right(file: &[u8], facts: &[u8], k: usize) -> bool
    requires { k < 65536 }
    ensures { result ≡ used_right file.now facts.now k }
{
    names_variable(file, facts, k) && has_value(file, facts, k) && rises(facts, k)
}

// An unused place holds two zero bytes.
fn unused_right(facts: &[u8], k: usize) -> bool
    requires { k < 65536 }
    ensures { result ≡ unused_right facts.now k }
{
    fact_variable(facts, k) == 0 && fact_value(facts, k) == 0
}

// Place k of a row is right, where the first places are used.
fn fact_right(file: &[u8], facts: &[u8], used: usize, k: usize) -> bool
    requires { k < 65536 }
    ensures { result ≡ fact_right file.now facts.now used k }
{
    if k < used {
        used_right(file, facts, k)
    } else {
        unused_right(facts, k)
    }
}

// The places of a row of facts, of which the first are used.
pub fn facts_right(file: &[u8], facts: &[u8], used: usize, places: usize) -> bool
    requires { places ≤ 65536 }
    ensures { result ≡ facts_right file.now facts.now used places }
{
    (0..places).all(|k| fact_right(file, facts, used, k))
}

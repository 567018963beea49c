// Facts, two bytes each: a variable's number and a value.
ghost use Rattle.std.specs.Prelude.{◌<◌};
ghost use Rattle.task.specs.Bytes.{Reads};
ghost use Rattle.task.specs.Format.{fact_variable, fact_value};

use crate::bytes::byte;

// The variable that fact k names.
pub fn fact_variable(facts: &[u8], k: usize) -> usize
    requires { k < 65536 }
    ensures { Reads result (fact_variable facts.now k) 256 }
{
    byte(facts, 2 * k)
}

// The value that fact k gives it.
pub fn fact_value(facts: &[u8], k: usize) -> usize
    requires { k < 65536 }
    ensures { Reads result (fact_value facts.now k) 256 }
{
    byte(facts, 2 * k + 1)
}

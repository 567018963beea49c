// The record lookup: an operator's record as a part of a file of any kind.
#![tactic(auto, using(crate::proofs::Laws::part_refused, crate::proofs::Laws::part_none, crate::proofs::Laws::part_record))]

ghost use Rattle.std.specs.Prelude.{◌≡◌};
ghost use Rattle.record_lookup.specs.Lookup.{operator_part};

use task::header::operators;
use task::records::operator_record;
use task_check::accepted;

// The record of operator o, as a part of the file: nothing for a refused file, or a number without a record. Nothing is the empty part, as
// for every part that runs past the file's end.
pub fn operator(file: &[u8], o: usize) -> &[u8]
    ensures { result.now ≡ operator_part file.now o }
{
    if accepted(file) && o < operators(file) {
        operator_record(file, o)
    } else {
        &file[..0]
    }
}

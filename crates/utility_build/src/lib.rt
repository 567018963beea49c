// The utility diagram of the task that a file holds: the constant 0, then each term added in turn.
#![tactic(auto)]

ghost use Rattle.std.specs.Prelude.{◌≡◌, true, ◌<◌, ◌≤◌, length};
ghost use Rattle.diagrams.specs.Store.{SameLists, table_of};
ghost use Rattle.diagrams.specs.Sets.{MakesAll};
ghost use Rattle.task.specs.Format.{terms};
ghost use Rattle.task.specs.Check.{accepted};
ghost use Rattle.task.specs.Decode.{task_of};
ghost use Rattle.utility_build.specs.Built.{stage, stages_after, Ready, AddsTerm, Builds};

use cube_bits::Cube;
use diagrams::{Full, Nodes};
use utility::FIRST_END;

// The stage after the one named a, in which the first t terms are added.
fn add_term(file: &[u8], nodes: &mut Nodes, memo: &mut [u32], a: u32, t: usize) -> Result<u32, Full>
    requires { Ready file.now (table_of nodes.old) memo.old a t × (t < terms file.now) }
    ensures adds { AddsTerm file.now (table_of nodes.old) (table_of nodes.new) memo.new result t }
    ensures lists { SameLists nodes.old nodes.new }
{
    let facts = task_states::model::term_cube(file, t);
    let cube = Cube {
        care: facts.care,
        value: facts.value,
    };
    let weight = task_states::model::term_weight(file, t) as u32;
    diagram_memo::widen(memo, nodes.count);
    let stamp = diagram_stamps::stamp(memo);
    utility_add::add(nodes, memo, stamp, 0, cube, weight, a, true)
}

// The stages after the one named zero, in which no term is added.
fn add_terms(file: &[u8], nodes: &mut Nodes, memo: &mut [u32], zero: u32) -> Result<u32, Full>
    requires { Ready file.now (table_of nodes.old) memo.old zero 0 }
    ensures makes { let f = file.now in
        MakesAll (table_of nodes.old) (table_of nodes.new) result (stages_after f (terms f) 0) (stage f (terms f)) }
    ensures lists { SameLists nodes.old nodes.new }
{
    let mut name = zero;
    for t in 0..task::header::terms(file) {
        name = add_term(file, nodes, memo, name, t)?;
    }
    Ok(name)
}

// The utility diagram of an accepted file's task. What the lists hold before does not matter.
pub fn build(file: &[u8], nodes: &mut Nodes, memo: &mut [u32]) -> Result<u32, Full>
    requires file_value { accepted file.now ≡ true }
    requires low_len { (length nodes.old.low.now ≡ length nodes.old.bit.now) × (length nodes.old.high.now ≡ length nodes.old.bit.now) × (length nodes.old.bit.now ≤ 1048576) }
    ensures builds { Builds (table_of nodes.old) (table_of nodes.new) result (task_of file.now) }
    ensures lists { SameLists nodes.old nodes.new }
{
    diagram_memo::begin(memo);
    nodes.count = 0;
    let zero = diagram_table::mk(nodes, FIRST_END, 0, 1)?;
    add_terms(file, nodes, memo, zero)
}

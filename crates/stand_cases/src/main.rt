// The stand cases of the file check, the record lookup and the walk, run: each answer on a line behind the case's name, compared with the file stdout.
#![tactic(auto)]

mod checks;
mod records;
mod show;
mod walks;

use std::io;

fn main(rt: HostRuntime) -> io::Result<()> {
    let mut out = io::writer(&rt);
    checks::all(&mut out)?;
    records::all(&mut out)?;
    walks::all(&mut out)
}

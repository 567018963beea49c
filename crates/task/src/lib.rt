// Reads BPT1 task files: the header's numbers, the records as parts of the file, the bits that a state takes.
#![tactic(auto)]

pub mod bytes;
pub mod coding;
pub mod facts;
pub mod header;
pub mod limits;
pub mod records;

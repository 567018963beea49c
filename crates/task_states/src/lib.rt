// States, cubes and utilities of the task that a file holds.
#![tactic(auto)]

pub mod cubes;
pub mod model;
pub mod state;

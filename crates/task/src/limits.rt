// The numbers of document 01's section "Task file", each under one name (specs/Limits.antt has the same).
pub const HEADER_BYTES: usize = 28;

pub const MOST_FILE_BYTES: usize = 16384;

pub const VARIABLE_BYTES: usize = 2;

pub const OPERATOR_BYTES: usize = 36;

pub const TERM_BYTES: usize = 12;

// Where the facts of an operator's or a term's record begin, and where an operator's effects do.
pub const FACTS_AT: usize = 4;

pub const EFFECTS_AT: usize = 20;

pub const MOST_VARIABLES: usize = 32;

pub const MOST_OPERATORS: usize = 256;

pub const MOST_TERMS: usize = 256;

pub const MOST_BOUND: usize = 4095;

pub const LEAST_VALUES: usize = 2;

pub const MOST_VALUES: usize = 16;

pub const MOST_COST: usize = 4095;

// The places for preconditions, and for effects, of an operator, and for facts of a term.
pub const OPERATOR_PLACES: usize = 8;

pub const TERM_PLACES: usize = 4;

pub const MOST_BITS: usize = 48;

// Rows of the log against the terms of an atom, and the value of an atom at an index.
#![tactic(auto)]

pub mod fitting;
pub mod lookup;
pub mod rows;

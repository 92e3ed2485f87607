// The predicate table: its records, and question 1.
#![tactic(auto)]

pub mod accepted;
pub mod table;

// The log: the value of an atom, questions 8, 9 and 10, and all links of a log.
#![tactic(auto)]

pub mod accepted;
pub mod links;
pub mod log;
pub mod value;

// Policies in the TPTP typed form: the reading of a text, with the questions that are asked of its words.
#![tactic(auto)]

pub mod formula;
pub mod policy;

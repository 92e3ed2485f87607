// Policies in the TPTP typed form: what is known behind a part of a text that was read, with questions 4 to 7 of it.
#![tactic(auto)]

pub mod state;

// Policies in the TPTP typed form: tokens, terms, binders and excluded tuples, put into a buffer one behind another.
#![tactic(auto)]

pub mod tokens;
pub mod tuples;

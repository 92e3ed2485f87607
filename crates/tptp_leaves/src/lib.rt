// Policies in the TPTP typed form: terms, and the nodes with none below them, as they stand in a text.
#![tactic(auto)]

pub mod leaves;
pub mod own;
pub mod terms;

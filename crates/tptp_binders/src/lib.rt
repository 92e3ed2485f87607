// Policies in the TPTP typed form: binders and excluded tuples as they stand in a text, and what stands ahead.
#![tactic(auto)]

pub mod ahead;
pub mod binder;
pub mod tuples;

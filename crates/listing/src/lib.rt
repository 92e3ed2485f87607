// The listing of a restriction.
#![tactic(auto)]

pub mod keeping;
pub mod restriction;
pub mod room;

// The join rule in a buffer: answers of a walk, and the parts of a join with its header put in at the end.
#![tactic(auto)]

pub mod answer;
pub mod join;

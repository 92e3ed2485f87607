// The mode rule, question 7, in a pass of its own over a policy that was read.
#![tactic(auto)]

pub mod marks;
pub mod mode;

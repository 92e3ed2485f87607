// The residual of a policy over a log, with all questions before it.
#![tactic(auto)]

pub mod residual;

// Environments, the numbers of terms in them, and lists of environments.
#![tactic(auto)]

pub mod environment;
pub mod lists;
pub mod terms;

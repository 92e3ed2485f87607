// Trees in words, walked flat, with no stack: past a tree, and copying it with numbers put in for variables.
#![tactic(auto)]

pub mod putting;
pub mod walk;

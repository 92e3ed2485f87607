// The instances of a quantifier, and whether its restriction is closed.
#![tactic(auto)]

pub mod choosing;
pub mod closing;
pub mod excluded;
pub mod seen;

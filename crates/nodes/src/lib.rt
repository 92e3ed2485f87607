// The reduction of one node: ground atoms and comparisons, and of a quantifier the instances, what is left once their bodies are
// joined, and the last part.
#![tactic(auto)]

pub mod conclude;
pub mod ground;
pub mod last;
pub mod outer;
pub mod prepare;

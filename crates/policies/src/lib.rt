// The policy: questions 2 to 6, in one walk.
#![tactic(auto)]

pub mod depth;
pub mod node;
pub mod policy;
pub mod spot;
pub mod terms;

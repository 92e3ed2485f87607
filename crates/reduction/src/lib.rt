// The reduction of a formula, in the room there is: the walk of formulas and instances.
#![tactic(auto)]

pub mod walk;

// Policies in the TPTP typed form: tokens, numbers and names as they stand in a text, and the words laid for them.
#![tactic(auto)]

pub mod laying;
pub mod name;
pub mod numbers;
pub mod several;
pub mod tokens;

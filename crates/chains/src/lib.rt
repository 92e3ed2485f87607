// The rows of a log chained by key, and the search for an atom's row along a chain.
#![tactic(auto)]

pub mod chain;
pub mod key;
pub mod row;
pub mod search;

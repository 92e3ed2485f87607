// The dual of a policy, in words.
#![tactic(auto)]

pub mod dual_words;

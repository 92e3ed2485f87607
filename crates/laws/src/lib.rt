// Theorems about the definitions of model: all of it stands in specs/ and proofs/.
#![tactic(auto)]

// Examples of the definitions of model at the limits of a text: all of it stands in specs/.
#![tactic(auto)]

// What calls promise: definitions only.
#![tactic(auto)]

// The three demands: definitions and theorems only. They speak of the definitions that the contracts cite, so that what is
// proved here of the definitions holds of every function that keeps its contract.
#![tactic(auto)]

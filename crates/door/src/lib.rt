// The demands at C's door: definitions and theorems only. They speak of the definitions that the contracts of the C functions
// cite, so that what is proved here of the definitions holds of every C function that keeps its contract.
#![tactic(auto)]

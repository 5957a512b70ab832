// Demands 1 to 3 of the functions that the port firmware calls, on one page. There is no code: specs/ says what is asked of them,
// proofs/ that they have it.
#![tactic(auto)]

// Demand 2: what a request alone does. There is no code: specs/ says it by characters, proofs/ that the start of
// `cio` and the moves of `moves` give exactly that.
#![tactic(auto)]

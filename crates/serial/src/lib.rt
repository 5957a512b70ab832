// Demands 2 and 3 for any machine of two ports and some groups. There is no code: specs/ says what they ask, proofs/ that
// every machine that meets specs/Laws.antt has it.
#![tactic(auto)]

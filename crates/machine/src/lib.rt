// Document 01's machine in the words of `serial`. There is no code: specs/ says what that machine is and what is seen of a stick,
// proofs/ that it meets the laws of `serial`, and that the definitions of the five calls follow it.
#![tactic(auto)]

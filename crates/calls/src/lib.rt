// What each call does, and what its stores make of the lent bytes: definitions and laws, no code.
#![tactic(auto)]

// When a state is damaged, and the test of it byte by byte, which is shown to be the same; no code: `judge` has it.
#![tactic(auto)]

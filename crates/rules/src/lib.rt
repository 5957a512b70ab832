// What the definitions of CIO and of the five calls come to, sentence by sentence of document 01; no code.
#![tactic(auto)]

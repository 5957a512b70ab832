// What the diskette doctor comes to, in the words of document 02: a sound image, and what is true of every repair; no code.
#![tactic(auto)]

// The wrong machines that document 01 lists, and some more, of its own machine: proofs/ refutes of each the statement that rules it out,
// so that no statement is one that anything meets. There is no code and no definition.
#![tactic(auto)]

// A stick as bytes, so that its state can be lent: the names of the places where each part stands. What the bytes of a part are, whether
// bytes stand for a stick, and that the two ways agree is in specs/ and proofs/.
#![tactic(auto)]

pub mod places;

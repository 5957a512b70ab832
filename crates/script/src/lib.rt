// A call script: its ops, read from standard input, the buffers that it lends, how much of each, and what is written for them on standard
// output. What reads the one and writes the other promises nothing: no promise can speak of either.
#![tactic(auto)]

pub mod answers;
pub mod board;
pub mod doctored;
pub mod dump;
pub mod lengths;
pub mod ops;
pub mod say;
pub mod streams;
pub mod tape;
pub mod ticking;
pub mod writes;

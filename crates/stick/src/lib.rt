// A take, a give, a press and a fresh start, of lent bytes that the call has tested.
#![tactic(auto)]

pub mod served;
pub mod started;

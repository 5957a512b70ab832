// The console, one of the groups: its state, and each of its handlers E, S and K over it and the lent screen.
#![tactic(auto)]

pub mod each;
pub mod state;

// The console's three handlers.
#[derive(Clone, Copy)]
pub enum Handler {
    E,
    S,
    K,
}

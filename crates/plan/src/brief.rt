// The part of a controller's state that a handler goes by.
use units::{RoundLabel, StateLabel};

#[derive(Clone, Copy)]
pub enum Phase {
    Idle,
    Collecting,
    Pending,
    Voting,
}

// Own number, phase, current label, state label, and the runs whose readings are held.
#[derive(Clone, Copy)]
pub struct Brief {
    pub own: usize,
    pub phase: Phase,
    pub label: RoundLabel,
    pub state: StateLabel,
    pub held: u32,
}

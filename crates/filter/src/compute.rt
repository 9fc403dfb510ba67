// What a decided round computes.
ghost use Rattle.std.specs.Prelude.{◌≡◌};
ghost use Rattle.filter.specs.Compute.{computed, new_state, set_points};

use crate::runs::runs_after;
use crate::share::{targets_of, total_of};
use units::{Estimate, Numbers, RoundLabel, StateLabel};

// The new state and the targets.
// Two answers, the state and the targets, each handed on alone.
#[derive(Clone, Copy)]
pub struct Computed {
    pub state: [Estimate; 16],
    pub targets: [f64; 16],
}

// A decided round: its label, that of the state it goes from, that state, the settings' numbers, the chosen runs and all readings.
#[derive(Clone, Copy)]
pub struct Round {
    pub label: RoundLabel,
    pub base: StateLabel,
    pub state: [Estimate; 16],
    pub numbers: Numbers,
    pub chosen: u32,
    pub readings: [u32; 16],
}

// The state that a round leaves.
#[tactic(auto, unfolding(crate::specs::Compute::new_state))]
pub fn state_after(round: Round) -> [Estimate; 16]
    ensures { result ≡ new_state round.label round.base round.state round.numbers round.chosen round.readings }
{
    let n = round.label.since(round.base);
    runs_after(round.state, n, round.numbers, round.chosen, round.readings)
}

// The targets that a state gives.
#[tactic(auto, unfolding(crate::specs::Compute::set_points))]
pub fn targets_from(state: [Estimate; 16], numbers: Numbers) -> [f64; 16]
    ensures { result ≡ set_points numbers state }
{
    targets_of(total_of(numbers.group.m, state), numbers)
}

pub(crate) fn compute(round: Round) -> Computed
    ensures { result ≡ computed round.label round.base round.state round.numbers round.chosen round.readings }
{
    let state = state_after(round);
    let targets = targets_from(state, round.numbers);
    Computed { state, targets }
}

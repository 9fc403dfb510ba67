// The controller's state, and what is in range of it.
ghost use Rattle.std.specs.Prelude.{◌≡◌};
ghost use Rattle.controller.specs.State.{ballot_at, brief_of, cast, controller_fits, phase_fits, tops};

use floats::ranges::state_in_range;
use message::readings::readings_in_range;
use plan::{Brief, Phase};
use units::mask::mask_end;
use units::{Estimate, Numbers, RoundLabel, StateLabel, limits};
use vote::votes::seats_in_range;
use vote::{Ballot, Seat};

// Own number, phase, current label, state label, the estimates of that state, the readings held (a mask of their runs, and
// 0 where there is none), and the votes of the current label by controller.
// Arrays by run, as document 01 names them; the readings are beside the mask that goes into Q, R and D (`controller_fits`).
#[derive(Clone, Copy)]
pub struct Controller {
    pub own: usize,
    pub phase: Phase,
    pub label: RoundLabel,
    pub state: StateLabel,
    pub estimates: [Estimate; 16],
    pub held: u32,
    pub readings: [u32; 16],
    pub votes: [Seat; 7],
}

// The largest of each quantity that a controller has a limit for.
#[derive(Clone, Copy)]
pub struct Tops {
    pub controllers: usize,
    pub runs: usize,
    pub label: u32,
    pub raw: u32,
    pub x: f64,
    pub variance: f64,
    pub target: f64,
}

impl Controller {
    pub const CONTROLLERS: usize = limits::CONTROLLERS;

    pub const RUNS: usize = limits::RUNS;

    pub const LABEL_TOP: u32 = limits::LABEL_TOP;

    pub const RAW_TOP: u32 = limits::RAW_TOP;

    pub const X_TOP: f64 = limits::X_TOP;

    pub const VARIANCE_TOP: f64 = limits::VARIANCE_TOP;

    pub const TARGET_TOP: f64 = limits::TARGET_TOP;

    // The constants as a value, so that what they are is promised.
    pub fn tops() -> Tops
        ensures { result ≡ tops }
    {
        Tops {
            controllers: Controller::CONTROLLERS,
            runs: Controller::RUNS,
            label: Controller::LABEL_TOP,
            raw: Controller::RAW_TOP,
            x: Controller::X_TOP,
            variance: Controller::VARIANCE_TOP,
            target: Controller::TARGET_TOP,
        }
    }

    // The part that a handler goes by.
    pub(crate) fn brief(self) -> Brief
        ensures { result ≡ brief_of self }
    {
        Brief {
            own: self.own,
            phase: self.phase,
            label: self.label,
            state: self.state,
            held: self.held,
        }
    }

    // What the seat of a number holds, nothing past the last seat.
    pub(crate) fn ballot(self, seat: usize) -> Ballot
        ensures { result ≡ ballot_at self seat }
    {
        self.votes.get(seat).and_then(|s| s.ballot)
    }
}

// Whether a ballot is a vote.
fn is_cast(b: Ballot) -> bool
    ensures { result ≡ cast b }
{
    b.is_some()
}

// Not idle: the digest that it would vote is legal, and its own vote is there exactly while voting.
#[tactic(auto, unfolding(crate::specs::State::phase_fits))]
fn phase_in_range(b: Brief, m: usize, own: Ballot) -> bool
    ensures { result ≡ phase_fits b m own b.phase }
{
    let legal = b.own_digest().legal(m, b.label);
    match b.phase {
        Phase::Idle => true,
        Phase::Collecting | Phase::Pending => legal && !is_cast(own),
        Phase::Voting => legal && is_cast(own),
    }
}

impl Controller {
    #[tactic(auto, unfolding(crate::specs::State::controller_fits))]
    pub fn in_range(self, numbers: Numbers) -> bool
        ensures { result ≡ controller_fits numbers self }
    {
        let group = numbers.group;
        self.own < group.g
            && self.label.floor_in_range()
            && self.state.in_range()
            && state_in_range(self.estimates, group.m)
            && self.held < mask_end(group.m)
            && readings_in_range(self.held, self.readings)
            && seats_in_range(self.votes, group, self.label)
            && phase_in_range(self.brief(), group.m, self.ballot(self.own))
    }
}

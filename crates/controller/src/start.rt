// A start: idle at the floor, on the empty state.
ghost use Rattle.std.specs.Prelude.{◌≡◌};
ghost use Rattle.controller.specs.Start.{start_at, start_estimates, start_of, started};

use crate::state::Controller;
use plan::Phase;
use units::{Estimate, Numbers, Refusal, RoundLabel, StateLabel};
use vote::Seat;

// Why a start was refused, and the controller that it would be.
#[derive(Clone, Copy)]
pub struct Unstarted {
    pub why: Refusal,
    pub controller: Controller,
}

// x = +0 and P = p for a run, +0 and +0 for any other place.
fn start_place(run: bool, p: u32) -> Estimate
    ensures { result ≡ start_at run p }
{
    Estimate {
        x: 0.0,
        variance: if run { f64::from(p) } else { 0.0 },
    }
}

fn start_estimates(m: usize, p: u32) -> [Estimate; 16]
    ensures { result ≡ start_estimates m p }
{
    std::array::from_fn(|i| start_place(i < m, p))
}

impl Controller {
    // The state of a start with a number and a floor, which must be in range as the settings must.
    #[tactic(auto, unfolding(crate::specs::Start::start_of))]
    pub fn begin(numbers: Numbers, own: usize, floor: RoundLabel) -> Controller
        ensures { result ≡ start_of numbers own floor }
    {
        Controller {
            own,
            phase: Phase::Idle,
            label: floor,
            state: StateLabel(0),
            estimates: start_estimates(numbers.group.m, numbers.p),
            held: 0,
            readings: [0; 16],
            votes: [Seat { ballot: None }; 7],
        }
    }

    // 6 where the number, the floor or the settings are out of range; the controller is that of the start then too.
    #[tactic(auto, unfolding(crate::specs::Start::started, units::specs::Pick::pick))]
    pub fn start(numbers: Numbers, own: usize, floor: RoundLabel) -> Result<Controller, Unstarted>
        ensures { result ≡ started numbers own floor }
    {
        let controller = Controller::begin(numbers, own, floor);
        if numbers.in_range() && own < numbers.group.g && floor.floor_in_range() {
            Ok(controller)
        } else {
            Err(Unstarted {
                why: Refusal::Range,
                controller,
            })
        }
    }
}

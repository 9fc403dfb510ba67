// The one place where a plan's effect is applied to the controller: what an effect doesn't name stays.
ghost use Rattle.std.specs.Prelude.{set, ◌≡◌};
ghost use Rattle.controller.specs.Effects.{added, adopting, applied, begun, counted, in_phase, issuing, merged_in};

use crate::merge::{merge_readings, run_bit};
use crate::state::Controller;
use filter::Round;
use filter::compute::state_after;
use message::Message;
use plan::{Effect, Phase};
use units::{Estimate, Numbers, RoundLabel, StateLabel};
use vote::{Digest, Seat, put_vote};

// One reading at its run; past the last run nothing.
fn put_reading(mut readings: [u32; 16], run: usize, raw: u32) -> [u32; 16]
    ensures { result ≡ set readings run raw }
{
    if run < Controller::RUNS {
        readings[run] = raw;
    }
    readings
}

impl Controller {
    fn go(self, phase: Phase) -> Controller
        ensures { result ≡ in_phase self phase }
    {
        Controller { phase, ..self }
    }

    // A new collecting round with one reading and no votes.
    fn begin_round(self, label: RoundLabel, run: usize, raw: u32) -> Controller
        ensures { result ≡ begun self label run raw }
    {
        Controller {
            phase: Phase::Collecting,
            label,
            held: run_bit(run),
            readings: put_reading([0; 16], run, raw),
            votes: [Seat { ballot: None }; 7],
            ..self
        }
    }

    // One reading more, put where it belongs.
    pub fn add(mut self, run: usize, raw: u32) -> Controller
        ensures { result ≡ added self run raw }
    {
        if run < Controller::RUNS {
            self.readings[run] = raw;
        }
        self.held |= run_bit(run);
        self
    }

    fn merge(self, mask: u32, new: [u32; 16]) -> Controller
        ensures { result ≡ merged_in self mask new }
    {
        Controller {
            held: self.held | mask,
            readings: merge_readings(mask, new, self.readings),
            ..self
        }
    }

    fn adopt(self, state: StateLabel, estimates: [Estimate; 16], phase: Phase) -> Controller
        ensures { result ≡ adopting self state estimates phase }
    {
        Controller {
            phase,
            state,
            estimates,
            ..self
        }
    }

    fn count(self, seat: usize, digest: Digest, phase: Phase) -> Controller
        ensures { result ≡ counted self seat digest phase }
    {
        Controller {
            phase,
            votes: put_vote(self.votes, seat, digest),
            ..self
        }
    }

    // Compute from the chosen digest; the state is the round's, and the phase idle.
    fn issue(self, numbers: Numbers, chosen: Digest) -> Controller
        ensures { result ≡ issuing numbers self chosen }
    {
        let state = self.estimates;
        let readings = self.readings;
        let next = state_after(Round {
            label: self.label,
            base: self.state,
            state,
            numbers,
            chosen: chosen.mask,
            readings,
        });
        self.adopt(self.label.issued(), next, Phase::Idle)
    }

    // The controller after an effect; `message` is the one at hand.
    #[tactic(auto, unfolding(crate::specs::Effects::applied, crate::specs::Effects::issuing))]
    pub fn apply(self, numbers: Numbers, message: Message, effect: Effect) -> Controller
        ensures { result ≡ applied numbers message self effect }
    {
        match effect {
            Effect::Keep => self,
            Effect::Go { phase } => self.go(phase),
            Effect::Begin { label, run, raw } => self.begin_round(label, run, raw),
            Effect::Add { run, raw } => self.add(run, raw),
            Effect::Merge { mask } => self.merge(mask, message.readings),
            Effect::Adopt { state, phase } => self.adopt(state, message.estimates, phase),
            Effect::Count {
                seat,
                digest,
                phase,
            } => self.count(seat, digest, phase),
            Effect::Issue {
                seat,
                digest,
                chosen,
            } => self.count(seat, digest, Phase::Idle).issue(numbers, chosen),
            Effect::Restart { own, floor } => Controller::begin(numbers, own, floor),
        }
    }
}

// Handlers of C, E and V: readings due, collecting ends, voting ends.
ghost use Rattle.std.specs.Prelude.{◌≡◌};
ghost use Rattle.plan.specs.Timers.{asking, missing_runs, plan_due, plan_ends, plan_voting_ends};

use crate::brief::{Brief, Phase};
use crate::planned::{Effect, Plan, doing, refusal, sending, sending_both};
use message::Head;
use units::mask::mask_end;
use units::{Refusal, RoundLabel};

impl Brief {
    // The runs not held, as a mask.
    #[tactic(auto, unfolding(crate::specs::Timers::missing_runs))]
    fn missing_runs(self, m: usize) -> u32
        ensures { result ≡ missing_runs self m }
    {
        (mask_end(m) - 1).saturating_sub(self.held)
    }

    // Q for the runs not held, if any, then A if the state label is below label - 1.
    #[tactic(auto, unfolding(crate::specs::Timers::asking, units::specs::Pick::pick))]
    fn ask(self, m: usize) -> Plan
        ensures { result ≡ asking self m }
    {
        let Brief {
            own: sender,
            label,
            state,
            ..
        } = self;
        let mask = self.missing_runs(m);
        let query = Head::Query {
            sender,
            label,
            mask,
        };
        let advert = Head::Advert { sender, state };
        match (mask == 0, state.below(label.previous())) {
            (true, true) => sending(Effect::Keep, advert),
            (true, false) => doing(Effect::Keep),
            (false, true) => sending_both(Effect::Keep, query, advert),
            (false, false) => sending(Effect::Keep, query),
        }
    }

    // C.
    #[tactic(auto, unfolding(crate::specs::Timers::plan_due, crate::specs::Timers::in_due, units::specs::Pick::pick))]
    pub fn on_due(self, m: usize, label: RoundLabel) -> Plan
        ensures { result ≡ plan_due self m label }
    {
        if !label.same(self.label) {
            return refusal(Refusal::Other);
        }
        match self.phase {
            Phase::Collecting => self.ask(m),
            Phase::Idle | Phase::Pending | Phase::Voting => refusal(Refusal::Closed),
        }
    }

    // E: pending, and the label goes out to be stored as a floor.
    #[tactic(auto, unfolding(crate::specs::Timers::plan_ends, crate::specs::Timers::in_ends, units::specs::Pick::pick))]
    pub fn on_collecting_ends(self, label: RoundLabel) -> Plan
        ensures { result ≡ plan_ends self label }
    {
        if !label.same(self.label) {
            return refusal(Refusal::Other);
        }
        match self.phase {
            Phase::Collecting => sending(
                Effect::Go {
                    phase: Phase::Pending,
                },
                Head::Floor { label: self.label },
            ),
            Phase::Idle | Phase::Pending | Phase::Voting => refusal(Refusal::Closed),
        }
    }

    // V: the round ends undecided.
    #[tactic(auto, unfolding(crate::specs::Timers::plan_voting_ends, crate::specs::Timers::in_voting_ends, units::specs::Pick::pick))]
    pub fn on_voting_ends(self, label: RoundLabel) -> Plan
        ensures { result ≡ plan_voting_ends self label }
    {
        if !label.same(self.label) {
            return refusal(Refusal::Other);
        }
        match self.phase {
            Phase::Idle | Phase::Collecting | Phase::Pending => refusal(Refusal::Closed),
            Phase::Voting => Plan {
                effect: Effect::Go { phase: Phase::Idle },
                first: None,
                second: None,
                verdict: Err(Refusal::Undecided),
            },
        }
    }
}

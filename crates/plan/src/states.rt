// Handlers of A, U and S: states, and the targets of others.
ghost use Rattle.std.specs.Prelude.{◌≡◌};
ghost use Rattle.plan.specs.States.{adopted, overtaken, plan_advert, plan_setpoints, plan_update};

use crate::brief::{Brief, Phase};
use crate::planned::{Effect, Plan, doing, refusal, sending};
use message::Head;
use units::{Refusal, StateLabel};

impl Brief {
    // A: U where the sender's state is older than ours.
    #[tactic(auto, unfolding(crate::specs::States::plan_advert, units::specs::Pick::pick))]
    pub fn on_advert(self, sender: usize, theirs: StateLabel) -> Plan
        ensures { result ≡ plan_advert self sender theirs }
    {
        if sender == self.own {
            return refusal(Refusal::Own);
        }
        if theirs.below(self.state) {
            let update = Head::Update {
                sender: self.own,
                state: self.state,
            };
            return sending(Effect::Keep, update);
        }
        doing(Effect::Keep)
    }

    // The phase after a newer state was taken while collecting: idle where it is at or above the round's label.
    #[tactic(auto, unfolding(crate::specs::States::overtaken, units::specs::Pick::pick))]
    fn phase_after(self, theirs: StateLabel) -> Phase
        ensures { result ≡ overtaken self theirs }
    {
        if theirs.before(self.label) {
            Phase::Collecting
        } else {
            Phase::Idle
        }
    }

    // U where states may be taken: `same` tells whether its estimates are ours, `phase` is the phase after it is taken.
    #[tactic(auto, unfolding(crate::specs::States::adopted, units::specs::Pick::pick))]
    fn adopt(self, theirs: StateLabel, same: bool, phase: Phase) -> Plan
        ensures { result ≡ adopted self theirs same phase }
    {
        if self.state.below(theirs) {
            return doing(Effect::Adopt {
                state: theirs,
                phase,
            });
        }
        if theirs.below(self.state) || same {
            return doing(Effect::Keep);
        }
        refusal(Refusal::Clash)
    }

    // U: `same` tells whether its estimates are ours.
    #[tactic(auto, unfolding(crate::specs::States::plan_update, crate::specs::States::in_update, units::specs::Pick::pick))]
    pub fn on_update(self, sender: usize, theirs: StateLabel, same: bool) -> Plan
        ensures { result ≡ plan_update self sender theirs same }
    {
        if sender == self.own {
            return refusal(Refusal::Own);
        }
        match self.phase {
            Phase::Idle => self.adopt(theirs, same, Phase::Idle),
            Phase::Collecting => self.adopt(theirs, same, self.phase_after(theirs)),
            Phase::Pending | Phase::Voting => refusal(Refusal::Closed),
        }
    }

    // S of another is 9, its own 7.
    #[tactic(auto, unfolding(crate::specs::States::plan_setpoints, units::specs::Pick::pick))]
    pub fn on_setpoints(self, sender: usize) -> Plan
        ensures { result ≡ plan_setpoints self sender }
    {
        if sender == self.own {
            return refusal(Refusal::Own);
        }
        refusal(Refusal::Closed)
    }
}

// Handlers of M, Q and R: readings.
ghost use Rattle.std.specs.Prelude.{◌≡◌};
ghost use Rattle.plan.specs.Readings.{answered, collected, plan_query, plan_reading, plan_reply, same_round};

use crate::brief::{Brief, Phase};
use crate::planned::{Effect, Plan, doing, refusal, sending};
use message::Head;
use units::mask::has;
use units::{Refusal, RoundLabel};

impl Brief {
    // M of the current label while collecting: `here` is what is held for that run.
    #[tactic(auto, unfolding(crate::specs::Readings::collected, units::specs::Pick::pick))]
    fn collect(self, here: u32, run: usize, raw: u32) -> Plan
        ensures { result ≡ collected self here run raw }
    {
        if !has(self.held, run) {
            doing(Effect::Add { run, raw })
        } else if here == raw {
            doing(Effect::Keep)
        } else {
            refusal(Refusal::Clash)
        }
    }

    // M of the current label.
    #[tactic(auto, unfolding(crate::specs::Readings::same_round, units::specs::Pick::pick))]
    fn reading_again(self, here: u32, run: usize, raw: u32) -> Plan
        ensures { result ≡ same_round self here run raw self.phase }
    {
        match self.phase {
            Phase::Idle => refusal(Refusal::Late),
            Phase::Collecting => self.collect(here, run, raw),
            Phase::Pending | Phase::Voting => refusal(Refusal::Closed),
        }
    }

    // M: `here` is what is held for that run.
    #[tactic(auto, unfolding(crate::specs::Readings::plan_reading, units::specs::Pick::pick))]
    pub fn on_reading(self, here: u32, label: RoundLabel, run: usize, raw: u32) -> Plan
        ensures { result ≡ plan_reading self here label run raw }
    {
        if !self.state.before(label) || label.below(self.label) {
            refusal(Refusal::Late)
        } else if label.same(self.label) {
            self.reading_again(here, run, raw)
        } else {
            doing(Effect::Begin { label, run, raw })
        }
    }

    // R for the asked runs that are held, nothing where none is.
    #[tactic(auto, unfolding(crate::specs::Readings::answered, units::specs::Pick::pick))]
    fn answer(self, mask: u32) -> Plan
        ensures { result ≡ answered self mask }
    {
        let found = mask & self.held;
        if found == 0 {
            return doing(Effect::Keep);
        }
        sending(
            Effect::Keep,
            Head::Reply {
                sender: self.own,
                label: self.label,
                mask: found,
            },
        )
    }

    // Q.
    #[tactic(auto, unfolding(crate::specs::Readings::plan_query, crate::specs::Readings::in_query, units::specs::Pick::pick))]
    pub fn on_query(self, sender: usize, label: RoundLabel, mask: u32) -> Plan
        ensures { result ≡ plan_query self sender label mask }
    {
        if sender == self.own {
            return refusal(Refusal::Own);
        }
        if !label.same(self.label) {
            return refusal(Refusal::Other);
        }
        match self.phase {
            Phase::Idle => refusal(Refusal::Closed),
            Phase::Collecting | Phase::Pending | Phase::Voting => self.answer(mask),
        }
    }

    // R: `clash` tells whether one of its readings differs from what is held.
    #[tactic(auto, unfolding(crate::specs::Readings::plan_reply, crate::specs::Readings::in_reply, units::specs::Pick::pick))]
    pub fn on_reply(self, sender: usize, label: RoundLabel, mask: u32, clash: bool) -> Plan
        ensures { result ≡ plan_reply self sender label mask clash }
    {
        if sender == self.own {
            return refusal(Refusal::Own);
        }
        if !label.same(self.label) {
            return refusal(Refusal::Other);
        }
        match self.phase {
            Phase::Collecting if clash => refusal(Refusal::Clash),
            Phase::Collecting => doing(Effect::Merge { mask }),
            Phase::Idle | Phase::Pending | Phase::Voting => refusal(Refusal::Closed),
        }
    }
}

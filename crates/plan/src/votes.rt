// Handlers of F and D: the own vote, and the votes of others.
ghost use Rattle.std.specs.Prelude.{◌≡◌};
ghost use Rattle.plan.specs.Votes.{in_seat, own_digest, plan_digest, plan_floor};

use crate::brief::{Brief, Phase};
use crate::planned::{Effect, Plan, doing, refusal, sending};
use message::Head;
use units::{Refusal, RoundLabel};
use vote::{Ballot, Digest};

impl Brief {
    // What this controller votes: the runs that it holds, and its state.
    pub fn own_digest(self) -> Digest
        ensures { result ≡ own_digest self }
    {
        Digest {
            mask: self.held,
            state: self.state,
        }
    }

    // F: voting; D goes out, and counts as our vote. What judging the vote then gives comes after.
    #[tactic(auto, unfolding(crate::specs::Votes::plan_floor, crate::specs::Votes::in_floor, units::specs::Pick::pick))]
    pub fn on_floor(self, label: RoundLabel) -> Plan
        ensures { result ≡ plan_floor self label }
    {
        if !label.same(self.label) {
            return refusal(Refusal::Other);
        }
        match self.phase {
            Phase::Pending => {
                let digest = self.own_digest();
                sending(
                    Effect::Count {
                        seat: self.own,
                        digest,
                        phase: Phase::Voting,
                    },
                    Head::Vote {
                        sender: self.own,
                        label: self.label,
                        digest,
                    },
                )
            }
            Phase::Idle | Phase::Collecting | Phase::Voting => refusal(Refusal::Closed),
        }
    }

    // D of the current label, not idle: `cast` is what its sender's seat holds.
    #[tactic(auto, unfolding(crate::specs::Votes::in_seat, units::specs::Pick::pick))]
    fn seat(self, cast: Ballot, sender: usize, digest: Digest) -> Plan
        ensures { result ≡ in_seat sender digest self.phase cast }
    {
        match cast {
            Some(e) if !e.same(digest) => refusal(Refusal::Clash),
            _ => doing(Effect::Count {
                seat: sender,
                digest,
                phase: self.phase,
            }),
        }
    }

    // D: `cast` is what its sender's seat holds.
    #[tactic(auto, unfolding(crate::specs::Votes::plan_digest, crate::specs::Votes::in_digest, units::specs::Pick::pick))]
    pub fn on_digest(self, cast: Ballot, sender: usize, label: RoundLabel, digest: Digest) -> Plan
        ensures { result ≡ plan_digest self cast sender label digest }
    {
        if sender == self.own {
            return refusal(Refusal::Own);
        }
        if !label.same(self.label) {
            return refusal(Refusal::Other);
        }
        match self.phase {
            Phase::Idle => refusal(Refusal::Closed),
            Phase::Collecting | Phase::Pending | Phase::Voting => {
                self.seat(cast, sender, digest)
            }
        }
    }
}

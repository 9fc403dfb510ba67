// What a vote leads to while voting, once it is judged.
ghost use Rattle.std.specs.Prelude.{◌≡◌};
ghost use Rattle.plan.specs.Votes.{chosen_plan, end_of, judged, possessed};

use crate::brief::{Brief, Phase};
use crate::planned::{Effect, Plan, Sent, sending_after};
use message::Head;
use units::Refusal;
use vote::{Decision, Digest};

// The round's end with the vote taken in: the phase becomes idle, all else is kept.
// (seat, digest, first) are the fields of one D and what goes out with it, put into an effect in each.
fn end(seat: usize, digest: Digest, first: Sent, why: Refusal) -> Plan
    ensures { result ≡ end_of seat digest first why }
{
    Plan {
        effect: Effect::Count {
            seat,
            digest,
            phase: Phase::Idle,
        },
        first,
        second: None,
        verdict: Err(why),
    }
}

impl Brief {
    // Whether the measurements and the state of the chosen digest are here.
    #[tactic(auto, unfolding(crate::specs::Votes::possessed))]
    fn possesses(self, chosen: Digest) -> bool
        ensures { result ≡ possessed self chosen }
    {
        chosen.mask & self.held == chosen.mask && chosen.state.same(self.state)
    }

    // The vote is decided: 14, then 13, else compute and send S.
    #[tactic(auto, unfolding(crate::specs::Votes::chosen_plan, units::specs::Pick::pick))]
    fn chosen_plan(self, seat: usize, digest: Digest, first: Sent, chosen: Digest) -> Plan
        ensures { result ≡ chosen_plan self seat digest first chosen }
    {
        if !chosen.state.before(self.label) {
            return end(seat, digest, first, Refusal::Behind);
        }
        if !self.possesses(chosen) {
            return end(seat, digest, first, Refusal::Lacking);
        }
        sending_after(
            Effect::Issue {
                seat,
                digest,
                chosen,
            },
            first,
            Head::Setpoints {
                sender: self.own,
                label: self.label,
                digest: chosen,
            },
        )
    }

    // A vote was taken in while voting, `first` goes out with it, and all votes together are decided so.
    #[tactic(auto, unfolding(crate::specs::Votes::judged))]
    pub fn judge(self, seat: usize, digest: Digest, first: Sent, decision: Decision) -> Plan
        ensures { result ≡ judged self seat digest first decision }
    {
        match decision {
            Err(_) | Ok(None) => Plan {
                effect: Effect::Count {
                    seat,
                    digest,
                    phase: Phase::Voting,
                },
                first,
                second: None,
                verdict: Ok(()),
            },
            Ok(Some(chosen)) => self.chosen_plan(seat, digest, first, chosen),
        }
    }
}

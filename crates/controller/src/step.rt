// A step: validity first, then the plan that the message leads to, and its effect.
ghost use Rattle.std.specs.Prelude.{◌≡◌, get_or};
ghost use Rattle.floats.specs.Ranges.{same_state};
ghost use Rattle.controller.specs.Step.{carried_out, clashing, decision_with, inputs_fit, judged_in, judged_plan, planned, reading_change, stepped};

use crate::merge::readings_agree;
use crate::state::Controller;
use floats::same::same_state;
use message::{Head, Message};
use plan::planned::{doing, refusal};
use plan::{Change, Effect, Phase, Plan, Sent};
use units::{Estimate, Numbers, Refusal, RoundLabel, Verdict};
use vote::{Decision, Digest, Votes, decide, put_vote};

// The next controller, what is sent (first, then second, with no gap), and what the step says.
// The verdict stands beside the rest: after a refusal that ends the round the next state is another, and D is still sent (`Ended`).
#[derive(Clone, Copy)]
pub struct Said<M> {
    pub next: Controller,
    pub first: Option<M>,
    pub second: Option<M>,
    pub verdict: Verdict,
}

// An answer that has what is sent by its heads.
pub type Answer = Said<Head>;

impl Controller {
    // What is held for a run, 0 where nothing is.
    fn reading(self, run: usize) -> u32
        ensures { result ≡ get_or self.readings run 0 }
    {
        self.readings.get(run).copied().unwrap_or(0)
    }

    // What all votes are decided for, once a vote is in its seat.
    fn decision_with(self, numbers: Numbers, seat: usize, digest: Digest) -> Decision
        ensures { result ≡ decision_with numbers self seat digest }
    {
        decide(Votes {
            group: numbers.group,
            label: self.label,
            seats: put_vote(self.votes, seat, digest),
        })
    }

    // A vote taken in: judged while voting.
    #[tactic(auto, unfolding(crate::specs::Step::judged_in))]
    fn judged_in(
        self,
        numbers: Numbers,
        plan: Plan,
        seat: usize,
        digest: Digest,
        phase: Phase,
    ) -> Plan
        ensures { result ≡ judged_in numbers self plan seat digest phase }
    {
        match phase {
            Phase::Voting => {
                let decision = self.decision_with(numbers, seat, digest);
                self.brief().judge(seat, digest, plan.first, decision)
            }
            _ => plan,
        }
    }

    // "While voting, the vote is judged after F and after each D": a plan that takes in no vote stands.
    #[tactic(auto, unfolding(crate::specs::Step::judged_plan))]
    fn judged_plan(self, numbers: Numbers, plan: Plan) -> Plan
        ensures { result ≡ judged_plan numbers self plan plan.effect }
    {
        match plan.effect {
            Effect::Count {
                seat,
                digest,
                phase,
            } => self.judged_in(numbers, plan, seat, digest, phase),
            _ => plan,
        }
    }

    // R: whether one of its readings differs from what is held.
    fn clashes(self, mask: u32, new: [u32; 16]) -> bool
        ensures { result ≡ clashing self mask new }
    {
        !readings_agree(mask & self.held, new, self.readings)
    }

    // U: whether its estimates are ours, bit for bit.
    fn holds_state(self, theirs: [Estimate; 16]) -> bool
        ensures { result ≡ same_state theirs self.estimates }
    {
        same_state(theirs, self.estimates)
    }

    // How much a reading changes.
    pub fn reading_change(self, label: RoundLabel, run: usize, raw: u32) -> Change
        ensures { result ≡ reading_change self label run raw }
    {
        self.brief()
            .on_reading(self.reading(run), label, run, raw)
            .effect
            .change()
    }

    // What the message leads to.
    #[tactic(auto, unfolding(crate::specs::Step::planned))]
    pub fn plan(self, numbers: Numbers, message: Message) -> Plan
        ensures { result ≡ planned numbers self message message.head }
    {
        let brief = self.brief();
        match message.head {
            Head::Reading { label, run, raw } => brief.on_reading(
                self.reading(run),
                label,
                run,
                raw,
            ),
            Head::Query {
                sender,
                label,
                mask,
            } => brief.on_query(sender, label, mask),
            Head::Reply {
                sender,
                label,
                mask,
            } => brief.on_reply(sender, label, mask, self.clashes(mask, message.readings)),
            Head::Advert { sender, state } => brief.on_advert(sender, state),
            Head::Update { sender, state } => brief.on_update(
                sender,
                state,
                self.holds_state(message.estimates),
            ),
            Head::Vote {
                sender,
                label,
                digest,
            } => self.judged_plan(
                numbers,
                brief.on_digest(self.ballot(sender), sender, label, digest),
            ),
            Head::Setpoints { sender, .. } => brief.on_setpoints(sender),
            Head::Due { label } => brief.on_due(numbers.group.m, label),
            Head::CollectingEnds { label } => brief.on_collecting_ends(label),
            Head::VotingEnds { label } => brief.on_voting_ends(label),
            Head::Floor { label } => self.judged_plan(numbers, brief.on_floor(label)),
            Head::Start { own, floor } => doing(Effect::Restart { own, floor }),
            Head::Refused { .. } => refusal(Refusal::Kind),
        }
    }

    // Settings, state and message in range, or 6 before all else.
    #[tactic(auto, unfolding(crate::specs::Step::inputs_fit))]
    fn inputs_in_range(self, numbers: Numbers, message: Message) -> bool
        ensures { result ≡ inputs_fit numbers self message }
    {
        numbers.in_range() && self.in_range(numbers) && message.in_range(numbers.group)
    }

    // A step on inputs that are in range: what the message leads to, carried out. Unchecked: `step` stands above it.
    pub fn advance(self, numbers: Numbers, message: Message) -> Answer
        ensures { result ≡ carried_out numbers self message (planned numbers self message message.head) }
    {
        let plan = self.plan(numbers, message);
        Said {
            next: self.apply(numbers, message, plan.effect),
            first: plan.first,
            second: plan.second,
            verdict: plan.verdict,
        }
    }

    // A step on any inputs: 6 where one is out of range. `step` makes the messages of its answer.
    #[tactic(auto, unfolding(crate::specs::Step::stepped, units::specs::Pick::pick))]
    pub(crate) fn checked(self, numbers: Numbers, message: Message) -> Answer
        ensures { result ≡ stepped numbers self message }
    {
        if self.inputs_in_range(numbers, message) {
            self.advance(numbers, message)
        } else {
            Said {
                next: self,
                first: None,
                second: None,
                verdict: Err(Refusal::Range),
            }
        }
    }
}

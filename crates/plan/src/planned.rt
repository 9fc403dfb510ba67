// A plan: the effect on the controller, up to two messages to send, and what the step says.
ghost use Rattle.std.specs.Prelude.{◌≡◌};
ghost use Rattle.plan.specs.Plan.{afterwards, both, change_of, does, refuse, sends};

use crate::brief::Phase;
use message::Head;
use units::{Refusal, RoundLabel, StateLabel, Verdict};
use vote::Digest;

// What becomes of the controller.
#[derive(Clone, Copy)]
pub enum Effect {
    // Nothing changes.
    Keep,
    // The phase alone.
    Go {
        phase: Phase,
    },
    // A new collecting round with one reading and no votes.
    Begin {
        label: RoundLabel,
        run: usize,
        raw: u32,
    },
    // One reading more.
    Add {
        run: usize,
        raw: u32,
    },
    // The readings of the message at hand.
    Merge {
        mask: u32,
    },
    // The state of the message at hand.
    Adopt {
        state: StateLabel,
        phase: Phase,
    },
    // A vote, and the phase after it.
    Count {
        seat: usize,
        digest: Digest,
        phase: Phase,
    },
    // A vote, and the round is computed from the chosen digest.
    Issue {
        seat: usize,
        digest: Digest,
        chosen: Digest,
    },
    // A start.
    Restart {
        own: usize,
        floor: RoundLabel,
    },
}

// How much an effect changes: nothing, one reading, or more than that.
#[derive(Clone, Copy)]
pub enum Change {
    Nothing,
    Reading { run: usize, raw: u32 },
    More,
}

impl Effect {
    #[tactic(auto, unfolding(crate::specs::Plan::change_of, units::specs::Pick::pick))]
    pub fn change(self) -> Change
        ensures { result ≡ change_of self }
    {
        match self {
            Effect::Keep => Change::Nothing,
            Effect::Add { run, raw } => Change::Reading { run, raw },
            _ => Change::More,
        }
    }
}

// A message to send, but for the arrays of R, U and S, which are those of the controller after the step.
pub type Sent = Option<Head>;

// The verdict stands beside the rest: a refusal can end the round, and what is sent goes out with it (`end_of`, `plan_voting_ends`).
#[derive(Clone, Copy)]
pub struct Plan {
    pub effect: Effect,
    pub first: Sent,
    pub second: Sent,
    pub verdict: Verdict,
}

// A refusal that changes nothing.
pub fn refusal(why: Refusal) -> Plan
    ensures { result ≡ refuse why }
{
    Plan {
        effect: Effect::Keep,
        first: None,
        second: None,
        verdict: Err(why),
    }
}

// An effect, with nothing to send.
pub fn doing(effect: Effect) -> Plan
    ensures { result ≡ does effect }
{
    Plan {
        effect,
        first: None,
        second: None,
        verdict: Ok(()),
    }
}

// An effect and a message.
pub(crate) fn sending(effect: Effect, head: Head) -> Plan
    ensures { result ≡ sends effect head }
{
    Plan {
        effect,
        first: Some(head),
        second: None,
        verdict: Ok(()),
    }
}

// An effect and two messages.
pub(crate) fn sending_both(effect: Effect, one: Head, two: Head) -> Plan
    ensures { result ≡ both effect one two }
{
    Plan {
        effect,
        first: Some(one),
        second: Some(two),
        verdict: Ok(()),
    }
}

// An effect and a message behind what is sent already, with no gap.
#[tactic(auto, unfolding(crate::specs::Plan::afterwards, units::specs::Pick::pick))]
pub(crate) fn sending_after(effect: Effect, first: Sent, head: Head) -> Plan
    ensures { result ≡ afterwards effect head first }
{
    match first {
        None => sending(effect, head),
        Some(one) => sending_both(effect, one, head),
    }
}

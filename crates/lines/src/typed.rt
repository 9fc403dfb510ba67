// A message from the numbers of its line.
ghost use Rattle.std.specs.Prelude.{◌≡◌};
ghost use Rattle.floats.specs.Bits.{float_of};
ghost use Rattle.lines.specs.Lists.{column};
ghost use Rattle.lines.specs.Values.{estimate_in, head_of, message_of, reading_in, target_in, word};

use crate::kind::Kind;
use floats::bits::float_of;
use message::{Head, Message};
use units::limits::RUNS;
use units::mask::has;
use units::{Estimate, Group, RoundLabel, StateLabel};
use vote::Digest;

pub(crate) fn narrow(n: u64) -> u32
    ensures { result ≡ word n }
{
    (n % 4294967296) as u32
}

// The head of a line that begins with these numbers.
#[tactic(auto, unfolding(crate::specs::Values::head_of))]
fn head_of(kind: Kind, a: u64, b: u64, c: u64, d: u64) -> Head
    ensures { result ≡ head_of kind a b c d }
{
    let wa = narrow(a);
    let wb = narrow(b);
    let wc = narrow(c);
    let wd = narrow(d);
    match kind {
        Kind::Reading => Head::Reading {
            label: RoundLabel(wa),
            run: b as usize,
            raw: wc,
        },
        Kind::Query => Head::Query {
            sender: a as usize,
            label: RoundLabel(wb),
            mask: wc,
        },
        Kind::Reply => Head::Reply {
            sender: a as usize,
            label: RoundLabel(wb),
            mask: wc,
        },
        Kind::Advert => Head::Advert {
            sender: a as usize,
            state: StateLabel(wb),
        },
        Kind::Update => Head::Update {
            sender: a as usize,
            state: StateLabel(wb),
        },
        Kind::Vote => Head::Vote {
            sender: a as usize,
            label: RoundLabel(wb),
            digest: Digest {
                mask: wd,
                state: StateLabel(wc),
            },
        },
        Kind::Setpoints => Head::Setpoints {
            sender: a as usize,
            label: RoundLabel(wb),
            digest: Digest {
                mask: wd,
                state: StateLabel(wc),
            },
        },
        Kind::Due => Head::Due {
            label: RoundLabel(wa),
        },
        Kind::CollectingEnds => Head::CollectingEnds {
            label: RoundLabel(wa),
        },
        Kind::VotingEnds => Head::VotingEnds {
            label: RoundLabel(wa),
        },
        Kind::Floor => Head::Floor {
            label: RoundLabel(wa),
        },
        Kind::Start => Head::Start {
            own: a as usize,
            floor: RoundLabel(wb),
        },
        Kind::Refused => Head::Refused { number: wa },
        Kind::Sizes | Kind::Filter | Kind::Run => Head::Refused { number: 3 },
    }
}

// The readings by run: one for each set bit, from place 3 on.
fn readings_in(mask: u32, v: &[u64; 34]) -> [u32; 16]
    ensures { result ≡ column (reading_in mask v.now) 16 }
{
    let mut out = [0u32; 16];
    if mask == 0 {
        return out;
    }
    let mut at = 3;
    for i in 0..RUNS {
        if has(mask, i) {
            out[i] = narrow(v[at]);
            at += 1;
        }
    }
    out
}

fn estimate_of(x: u64, variance: u64) -> Estimate
    ensures { result ≡ record { x = float_of x; variance = float_of variance } }
{
    Estimate {
        x: float_of(x),
        variance: float_of(variance),
    }
}

// The estimates of n runs, two places each, from place 2 on.
fn estimates_in(n: usize, v: &[u64; 34]) -> [Estimate; 16]
    ensures { result ≡ column (estimate_in n v.now) 16 }
{
    std::array::from_fn(|i| if i < n {
        estimate_of(v[2 + 2 * i], v[3 + 2 * i])
    } else {
        Estimate {
            x: 0.0,
            variance: 0.0,
        }
    })
}

// The targets of n runs, from place 4 on.
fn targets_in(n: usize, v: &[u64; 34]) -> [f64; 16]
    ensures { result ≡ column (target_in n v.now) 16 }
{
    std::array::from_fn(|i| if i < n { float_of(v[4 + i]) } else { 0.0 })
}

#[tactic(auto, using(crate::proofs::Making::message_made, crate::proofs::Making::plain_made))]
pub(crate) fn message_of(kind: Kind, group: Group, v: &[u64; 34]) -> Message
    ensures { result ≡ message_of group kind v.now }
{
    let head = head_of(kind, v[0], v[1], v[2], v[3]);
    let carried = head.carries(group);
    if (carried.readings == 0) & (carried.estimates == 0) & (carried.targets == 0) {
        return Message::plain(head);
    }
    let readings = readings_in(carried.readings, v);
    let estimates = estimates_in(carried.estimates, v);
    let targets = targets_in(carried.targets, v);
    Message {
        head,
        readings,
        estimates,
        targets,
    }
}

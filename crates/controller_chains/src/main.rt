// Leads one controller through a chain of messages and prints every answer, to be compared with a second program's (tests/controller/chains.rs).
// A line for each message: the refusal's number or 0, the phase, the label, the state label and the runs held after it; the messages sent; and where
// the state label changed, the state. Then states and settings with one clause of their range broken at a time, and starts (wrong.rt).
#![tactic(auto)]

mod chain;
mod print;
mod wrong;

use chain::{CHAIN, Row};
use controller::Controller;
use message::{Head, Message};
use std::{array, io};
use units::mask::has;
use units::{Estimate, Group, Numbers, RoundLabel, answer_number};
use vote::Digest;

// What stands where no run is.
pub(crate) const BLANK: Estimate = Estimate {
    x: 0.0,
    variance: 0.0,
};

// Three controllers and three runs.
pub(crate) fn settings() -> Numbers {
    let mut factors = [0u32; 16];
    factors[0] = 10047;
    factors[1] = 9000;
    factors[2] = 11000;
    let mut weights = [0u32; 16];
    weights[0] = 3;
    weights[1] = 1;
    weights[2] = 1000;
    Numbers {
        group: Group { g: 3, m: 3 },
        q: 7,
        r: 300,
        p: 99,
        factors,
        weights,
    }
}

// The readings of an R: first, and 100 more for each run, of the mask's runs.
fn readings_from(mask: u32, first: u32) -> [u32; 16] {
    array::from_fn(|i| {
        if has(mask, i) {
            first % 1000000 + (i as u32) * 100
        } else {
            0
        }
    })
}

// The estimates of a U: x, and 1 more for each run; one P for all.
fn estimates_from(x: u32, variance: u32) -> [Estimate; 16] {
    let mut estimates = [BLANK; 16];
    for i in 0..3 {
        estimates[i] = Estimate {
            x: f64::from(x % 1000000 + i as u32),
            variance: f64::from(variance),
        };
    }
    estimates
}

// What a row's message says, but for its arrays.
fn head(row: Row) -> Head {
    match row {
        Row::Advert(sender, state) => Head::Advert { sender, state },
        Row::CollectingEnds(label) => Head::CollectingEnds { label },
        Row::Due(label) => Head::Due { label },
        Row::Floor(label) => Head::Floor { label },
        Row::Query(sender, label, mask) => Head::Query {
            sender,
            label,
            mask,
        },
        Row::Reading(label, run, raw) => Head::Reading { label, run, raw },
        Row::Refused(number) => Head::Refused { number },
        Row::Reply(sender, label, mask, _) => Head::Reply {
            sender,
            label,
            mask,
        },
        Row::Setpoints(sender, label, state, mask) => Head::Setpoints {
            sender,
            label,
            digest: Digest { mask, state },
        },
        Row::Start(own, floor) => Head::Start { own, floor },
        Row::Update(sender, state, _, _) => Head::Update { sender, state },
        Row::Vote(sender, label, state, mask) => Head::Vote {
            sender,
            label,
            digest: Digest { mask, state },
        },
        Row::VotingEnds(label) => Head::VotingEnds { label },
    }
}

fn message(row: Row) -> Message {
    let plain = Message::plain(head(row));
    match row {
        Row::Reply(_, _, mask, first) => Message {
            readings: readings_from(mask, first),
            ..plain
        },
        Row::Update(_, _, x, variance) => Message {
            estimates: estimates_from(x, variance),
            ..plain
        },
        _ => plain,
    }
}

fn play(rt: &impl Print, numbers: Numbers, c: Controller, a: Message) -> io::Result<Controller> {
    let before = c.state;
    let r = c.step(numbers, a);
    let verdict = r.verdict;
    let next = r.next;
    let now = next.state;
    print::number(rt, answer_number(verdict))?;
    print::brief(rt, next)?;
    print::sent(rt, numbers.group.m, r)?;
    if !now.same(before) {
        print::estimates(rt, numbers.group.m, next.estimates)?;
    }
    print::end(rt)?;
    Ok(next)
}

fn main(rt: HostRuntime) -> io::Result<()> {
    let numbers = settings();
    let mut c = Controller::begin(numbers, 0, RoundLabel(0));
    for row in CHAIN {
        c = play(&rt, numbers, c, message(row))?;
    }
    wrong::states(&rt)?;
    wrong::starts(&rt)
}

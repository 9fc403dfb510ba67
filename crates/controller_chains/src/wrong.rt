// A controller state and settings that are in range, and then with one thing in them changed at a time: what a step says, and the state after it, whole.
// tests/controller/chains.rs has the same rows, with a remark on each.
use crate::{BLANK, print, settings};
use controller::Controller;
use message::{Head, Message};
use plan::Phase;
use std::io;
use units::limits::{CONTROLLERS, RUNS};
use units::{Estimate, Numbers, RoundLabel, StateLabel, answer_number};
use vote::{Digest, Seat, put_vote};

// What is changed in a state: a number, what stands at a run or a seat (a vote by its state label and mask), or all readings.
#[derive(Clone, Copy)]
enum Change {
    Nothing,
    Own(usize),
    Label(u32),
    State(u32),
    Held(u32),
    Reading(usize, u32),
    X(usize, f64),
    Variance(usize, f64),
    Vote(usize, u32, u32),
    NoVote(usize),
    NoReading,
}

// What is changed in the settings: a number, or what stands at a run.
#[derive(Clone, Copy)]
enum Setting {
    Nothing,
    Controllers(usize),
    Runs(usize),
    Q(u32),
    R(u32),
    P(u32),
    Factor(usize, u32),
    Weight(usize, u32),
}

// The phase that a state is in, and what is changed in it.
const STATES: [(Phase, Change); 52] = [
    (Phase::Idle, Change::Nothing),
    (Phase::Collecting, Change::Nothing),
    (Phase::Pending, Change::Nothing),
    (Phase::Voting, Change::Nothing),
    (Phase::Idle, Change::Own(2)),
    (Phase::Idle, Change::Own(3)),
    (Phase::Collecting, Change::Label(3)),
    (Phase::Idle, Change::Label(0)),
    (Phase::Idle, Change::Label(4294967295)),
    (Phase::Collecting, Change::State(4)),
    (Phase::Collecting, Change::State(5)),
    (Phase::Pending, Change::State(6)),
    (Phase::Voting, Change::State(5)),
    (Phase::Idle, Change::State(4294967295)),
    (Phase::Idle, Change::NoReading),
    (Phase::Collecting, Change::NoReading),
    (Phase::Pending, Change::NoReading),
    (Phase::Voting, Change::NoReading),
    (Phase::Collecting, Change::Held(1)),
    (Phase::Collecting, Change::Held(7)),
    (Phase::Collecting, Change::Held(11)),
    (Phase::Idle, Change::Held(65539)),
    (Phase::Collecting, Change::Reading(1, 0)),
    (Phase::Collecting, Change::Reading(0, 1000001)),
    (Phase::Collecting, Change::Reading(2, 5)),
    (Phase::Collecting, Change::Reading(3, 5)),
    (Phase::Collecting, Change::Reading(15, 5)),
    (Phase::Idle, Change::X(0, 1100000.125)),
    (Phase::Idle, Change::X(2, -0.0)),
    (Phase::Idle, Change::X(2, f64::NAN)),
    (Phase::Idle, Change::X(2, f64::INFINITY)),
    (Phase::Idle, Change::X(2, -1.0)),
    (Phase::Idle, Change::X(2, 0.0)),
    (Phase::Idle, Change::Variance(1, 1000000000.125)),
    (Phase::Idle, Change::Variance(2, -0.0)),
    (Phase::Idle, Change::Variance(2, f64::NAN)),
    (Phase::Idle, Change::Variance(2, f64::INFINITY)),
    (Phase::Idle, Change::Variance(2, 1000000000.0)),
    (Phase::Idle, Change::X(3, 1100000.0)),
    (Phase::Idle, Change::Variance(15, 1000000000.0)),
    (Phase::Idle, Change::X(3, -0.0)),
    (Phase::Collecting, Change::Vote(2, 4, 8)),
    (Phase::Collecting, Change::Vote(2, 5, 7)),
    (Phase::Collecting, Change::Vote(2, 4, 0)),
    (Phase::Collecting, Change::Vote(2, 0, 1)),
    (Phase::Idle, Change::Vote(3, 4, 7)),
    (Phase::Idle, Change::Vote(6, 4, 7)),
    (Phase::Collecting, Change::Vote(0, 2, 3)),
    (Phase::Pending, Change::Vote(0, 2, 3)),
    (Phase::Idle, Change::Vote(0, 2, 3)),
    (Phase::Voting, Change::NoVote(0)),
    (Phase::Voting, Change::Vote(0, 4, 1)),
];

// Idle, under other settings.
const SETTINGS: [Setting; 20] = [
    Setting::Controllers(8),
    Setting::Controllers(0),
    Setting::Runs(17),
    Setting::Runs(0),
    Setting::Runs(2),
    Setting::Q(0),
    Setting::Q(1000001),
    Setting::Q(1000000),
    Setting::R(0),
    Setting::R(1000001),
    Setting::P(0),
    Setting::P(1000000001),
    Setting::P(1000000000),
    Setting::Factor(0, 8999),
    Setting::Factor(0, 11001),
    Setting::Factor(3, 10000),
    Setting::Weight(0, 0),
    Setting::Weight(0, 1001),
    Setting::Weight(0, 1000),
    Setting::Weight(15, 1),
];

// What is changed in the settings, own number, floor.
const STARTS: [(Setting, usize, u32); 13] = [
    (Setting::Nothing, 0, 0),
    (Setting::Nothing, 2, 7),
    (Setting::Nothing, 3, 0),
    (Setting::Nothing, 6, 0),
    (Setting::Nothing, 2, 4294967295),
    (Setting::Controllers(8), 0, 0),
    (Setting::Runs(17), 0, 0),
    (Setting::Q(0), 0, 0),
    (Setting::R(1000001), 0, 0),
    (Setting::P(1000000001), 0, 0),
    (Setting::P(1000000000), 1, 9),
    (Setting::Factor(0, 8999), 0, 0),
    (Setting::Weight(0, 1001), 0, 0),
];

fn digest(state: u32, mask: u32) -> Digest {
    let state = StateLabel(state);
    Digest { mask, state }
}

// The vote of 1, and while voting the own.
fn sound_votes(phase: Phase) -> [Seat; 7] {
    let nobody = Seat { ballot: None };
    let others = put_vote([nobody; 7], 1, digest(4, 7));
    match phase {
        Phase::Voting => put_vote(others, 0, digest(2, 3)),
        _ => others,
    }
}

// Own number 0, label 5, state label 2, readings of runs 0 and 1, and the votes above.
fn sound(phase: Phase) -> Controller {
    let mut readings = [0u32; 16];
    readings[0] = 1000000;
    readings[1] = 200;
    let mut estimates = [BLANK; 16];
    estimates[0] = Estimate {
        x: 1100000.0,
        variance: 5.0,
    };
    estimates[1] = Estimate {
        x: 20.0,
        variance: 1000000000.0,
    };
    estimates[2] = Estimate {
        x: 30.0,
        variance: 7.0,
    };
    Controller {
        own: 0,
        phase,
        label: RoundLabel(5),
        state: StateLabel(2),
        estimates,
        held: 3,
        readings,
        votes: sound_votes(phase),
    }
}

// A state with one thing changed.
fn changed(c: Controller, change: Change) -> Controller {
    let mut next = c;
    match change {
        Change::Nothing => {}
        Change::Own(n) => next.own = n,
        Change::Label(n) => next.label = RoundLabel(n),
        Change::State(n) => next.state = StateLabel(n),
        Change::Held(mask) => next.held = mask,
        Change::Reading(run, raw) => next.readings[run % RUNS] = raw,
        Change::X(run, x) => next.estimates[run % RUNS].x = x,
        Change::Variance(run, variance) => next.estimates[run % RUNS].variance = variance,
        Change::Vote(seat, state, mask) => {
            next.votes = put_vote(next.votes, seat, digest(state, mask))
        }
        Change::NoVote(seat) => next.votes[seat % CONTROLLERS] = Seat { ballot: None },
        Change::NoReading => {
            next.held = 0;
            next.readings = [0; 16];
        }
    }
    next
}

// The settings with one thing changed.
fn settings_with(setting: Setting) -> Numbers {
    let mut next = settings();
    match setting {
        Setting::Nothing => {}
        Setting::Controllers(g) => next.group.g = g,
        Setting::Runs(m) => next.group.m = m,
        Setting::Q(n) => next.q = n,
        Setting::R(n) => next.r = n,
        Setting::P(n) => next.p = n,
        Setting::Factor(run, n) => next.factors[run % RUNS] = n,
        Setting::Weight(run, n) => next.weights[run % RUNS] = n,
    }
    next
}

// What a step with A says of a state, what it sends, and the state after it.
fn shown(rt: &impl Print, numbers: Numbers, c: Controller) -> io::Result<()> {
    let a = Message::plain(Head::Advert {
        sender: 1,
        state: StateLabel(0),
    });
    let r = c.step(numbers, a);
    let verdict = r.verdict;
    let next = r.next;
    print::number(rt, answer_number(verdict))?;
    print::sent(rt, numbers.group.m, r)?;
    print::controller(rt, next)
}

pub(crate) fn states(rt: &impl Print) -> io::Result<()> {
    for (phase, change) in STATES {
        shown(rt, settings(), changed(sound(phase), change))?;
    }
    for setting in SETTINGS {
        shown(rt, settings_with(setting), sound(Phase::Idle))?;
    }
    Ok(())
}

// What a start says, and where it is taken, the controller.
fn tried(rt: &impl Print, numbers: Numbers, own: usize, floor: u32) -> io::Result<()> {
    match Controller::start(numbers, own, RoundLabel(floor)) {
        Ok(c) => {
            print::number(rt, 0)?;
            print::controller(rt, c)
        }
        Err(u) => {
            print::number(rt, u.why.number())?;
            print::end(rt)
        }
    }
}

pub(crate) fn starts(rt: &impl Print) -> io::Result<()> {
    for (setting, own, floor) in STARTS {
        tried(rt, settings_with(setting), own, floor)?;
    }
    Ok(())
}

// Prints what `winner` and `decide` say of document 01's cases v1 to v12, of digests of each place in the order, and of votes with one clause of "in range" broken at a time.
#![tactic(auto)]

use std::io;
use units::{Group, Refusal, RoundLabel, StateLabel};
use vote::{Digest, Seat, Votes};

// A missing vote.
fn none() -> Seat {
    Seat { ballot: None }
}

// A vote for (mask, state label).
fn cast(mask: u32, n: u32) -> Seat {
    let state = StateLabel(n);
    let d = Digest { mask, state };
    Seat { ballot: Some(d) }
}

// (mask, state label).
fn print_digest(rt: &impl Print, d: Digest) -> io::Result<()> {
    print!(rt; "({},{})", d.mask, d.state.0)
}

// What is said of votes: a digest, a text where it is none, or the refusal's number.
fn print_answer(
    rt: &impl Print,
    a: Result<Option<Digest>, Refusal>,
    nothing: &[u8],
) -> io::Result<()> {
    match a {
        Ok(None) => rt.write_all(nothing),
        Err(why) => rt.print(why.number()),
        Ok(Some(d)) => print_digest(rt, d),
    }
}

// A line: the winner among the votes there, a tab, what they are decided for.
fn show(rt: &impl Print, g: usize, m: usize, n: u32, seats: [Seat; 7]) -> io::Result<()> {
    let votes = Votes {
        group: Group { g, m },
        label: RoundLabel(n),
        seats,
    };
    print_answer(rt, vote::winner(votes), b"nobody")?;
    rt.write_all(b"\t")?;
    print_answer(rt, vote::decide(votes), b"no")?;
    rt.write_all(b"\n")
}

// v1 to v12.
fn show_cases(rt: &impl Print) -> io::Result<()> {
    let e = none();
    show(rt, 3, 2, 5, [cast(3, 4), e, e, e, e, e, e])?;
    show(rt, 2, 2, 5, [cast(3, 4), e, e, e, e, e, e])?;
    show(rt, 2, 2, 5, [cast(1, 4), e, e, e, e, e, e])?;
    show(rt, 3, 2, 5, [cast(1, 4), cast(1, 4), e, e, e, e, e])?;
    show(
        rt,
        3,
        2,
        5,
        [cast(1, 4), cast(2, 4), cast(3, 2), e, e, e, e],
    )?;
    show(rt, 4, 2, 5, [cast(3, 4), cast(3, 4), e, e, e, e, e])?;
    show(rt, 4, 2, 5, [cast(3, 3), cast(3, 3), e, e, e, e, e])?;
    show(rt, 3, 2, 5, [cast(3, 4), cast(1, 4), e, e, e, e, e])?;
    show(
        rt,
        4,
        2,
        5,
        [cast(3, 3), cast(3, 3), cast(1, 4), e, e, e, e],
    )?;
    show(
        rt,
        4,
        2,
        5,
        [cast(1, 4), cast(1, 4), cast(3, 2), e, e, e, e],
    )?;
    show(rt, 2, 2, 5, [cast(1, 4), cast(2, 4), e, e, e, e, e])?;
    show(rt, 3, 1, 1, [cast(1, 0), e, e, e, e, e, e])
}

// One vote each, so that the order alone tells: the state label comes before the number of measurements, that before the mask.
fn show_order(rt: &impl Print) -> io::Result<()> {
    let e = none();
    show(rt, 2, 2, 5, [cast(1, 4), cast(2, 3), e, e, e, e, e])?;
    show(rt, 2, 2, 5, [cast(2, 4), cast(3, 0), e, e, e, e, e])?;
    show(rt, 2, 3, 5, [cast(4, 2), cast(3, 2), e, e, e, e, e])?;
    show(rt, 2, 3, 5, [cast(3, 2), cast(5, 2), e, e, e, e, e])
}

// Votes out of range: g, m, the label, a mask of 0, a bit at m, a state label at the label, a vote beyond the group, and in the last seat.
fn show_refused(rt: &impl Print) -> io::Result<()> {
    let e = none();
    show(rt, 0, 2, 5, [e, e, e, e, e, e, e])?;
    show(rt, 8, 2, 5, [e, e, e, e, e, e, e])?;
    show(rt, 2, 0, 5, [e, e, e, e, e, e, e])?;
    show(rt, 2, 17, 5, [e, e, e, e, e, e, e])?;
    show(rt, 2, 2, 0, [e, e, e, e, e, e, e])?;
    show(rt, 2, 2, 5, [cast(0, 4), e, e, e, e, e, e])?;
    show(rt, 2, 2, 5, [cast(4, 4), e, e, e, e, e, e])?;
    show(rt, 2, 2, 5, [cast(1, 5), e, e, e, e, e, e])?;
    show(rt, 2, 2, 5, [e, e, cast(1, 4), e, e, e, e])?;
    show(rt, 6, 2, 5, [e, e, e, e, e, e, cast(1, 4)])?;
    show(rt, 7, 2, 5, [e, e, e, e, e, e, cast(0, 4)])
}

fn main(rt: HostRuntime) -> io::Result<()> {
    show_cases(&rt)?;
    show_order(&rt)?;
    show_refused(&rt)?;
    let e = none();
    show(&rt, 7, 16, u32::MAX, [e, e, e, e, e, e, e])
}

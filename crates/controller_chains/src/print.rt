// Prints numbers, messages and states: fields parted by tabs, floats by their bits.
use controller::{Controller, Told};
use floats::bits::bits_of;
use message::{Head, Message};
use std::fmt::Display;
use std::io;
use units::Estimate;
use units::limits::RUNS;
use units::mask::has;
use vote::{Ballot, Seat};

// A number behind a tab.
pub(crate) fn number(rt: &impl Print, n: impl Display + Drop) -> io::Result<()> {
    print!(rt; "\t{n}")
}

fn float(rt: &impl Print, v: f64) -> io::Result<()> {
    let bits = bits_of(v);
    print!(rt; "\t{bits:016X}")
}

// The readings of the mask's runs.
fn readings(rt: &impl Print, mask: u32, raws: [u32; 16]) -> io::Result<()> {
    for (i, raw) in raws.iter().enumerate() {
        if has(mask, i) {
            number(rt, *raw)?;
        }
    }
    Ok(())
}

// x and P of the first m runs.
pub(crate) fn estimates(rt: &impl Print, m: usize, state: [Estimate; 16]) -> io::Result<()> {
    for e in state.iter().take(m) {
        float(rt, e.x)?;
        float(rt, e.variance)?;
    }
    Ok(())
}

// The targets of the first m runs.
fn targets(rt: &impl Print, m: usize, given: [f64; 16]) -> io::Result<()> {
    for v in given.iter().take(m) {
        float(rt, *v)?;
    }
    Ok(())
}

// A message that is sent.
pub(crate) fn message(rt: &impl Print, m: usize, a: Message) -> io::Result<()> {
    match a.head {
        Head::Query {
            sender,
            label,
            mask,
        } => print!(rt; "\tQ\t{sender}\t{}\t{mask}", label.0),
        Head::Reply {
            sender,
            label,
            mask,
        } => {
            print!(rt; "\tR\t{sender}\t{}\t{mask}", label.0)?;
            readings(rt, mask, a.readings)
        }
        Head::Advert { sender, state } => print!(rt; "\tA\t{sender}\t{}", state.0),
        Head::Update { sender, state } => {
            print!(rt; "\tU\t{sender}\t{}", state.0)?;
            estimates(rt, m, a.estimates)
        }
        Head::Vote {
            sender,
            label,
            digest: d,
        } => print!(rt; "\tD\t{sender}\t{}\t{}\t{}", label.0, d.state.0, d.mask),
        Head::Setpoints {
            sender,
            label,
            digest: d,
        } => {
            print!(rt; "\tS\t{sender}\t{}\t{}\t{}", label.0, d.state.0, d.mask)?;
            targets(rt, m, a.targets)
        }
        Head::Floor { label } => print!(rt; "\tF\t{}", label.0),
        // no other kind is sent
        _ => print!(rt; "\t?")
    }
}

// The messages that go out, as many as there are.
pub(crate) fn sent(rt: &impl Print, m: usize, r: Told) -> io::Result<()> {
    if let Some(first) = r.first {
        message(rt, m, first)?;
    }
    if let Some(second) = r.second {
        message(rt, m, second)?;
    }
    Ok(())
}

// Phase, labels and runs held.
pub(crate) fn brief(rt: &impl Print, c: Controller) -> io::Result<()> {
    number(rt, c.phase as u32)?;
    number(rt, c.label.0)?;
    number(rt, c.state.0)?;
    number(rt, c.held)
}

// A vote, or 0 for none.
fn ballot(rt: &impl Print, b: Ballot) -> io::Result<()> {
    match b {
        None => number(rt, 0),
        Some(d) => print!(rt; "\t1\t{}\t{}", d.state.0, d.mask)
    }
}

fn votes(rt: &impl Print, seats: [Seat; 7]) -> io::Result<()> {
    for s in seats {
        ballot(rt, s.ballot)?;
    }
    Ok(())
}

pub(crate) fn end(rt: &impl Print) -> io::Result<()> {
    rt.write_all(b"\n")
}

// A controller, whole, and the line's end.
pub(crate) fn controller(rt: &impl Print, c: Controller) -> io::Result<()> {
    number(rt, c.own)?;
    brief(rt, c)?;
    readings(rt, 65535, c.readings)?;
    estimates(rt, RUNS, c.estimates)?;
    votes(rt, c.votes)?;
    end(rt)
}

// The station program: reads a block, hands it to the session, writes what it answers, and stops at the first failure.
#![tactic(auto)]

mod call;
mod hear;
mod say;

ghost use Rattle.std.specs.Prelude.{◌≡◌, ◌&&◌, not, ◌*◌, ◌≤◌, ltb, length, take};
ghost use Rattle.std.specs.Result.{result_unwrap_or};
ghost use Rattle.units.specs.Limits.{line_top};
ghost use Rattle.station.specs.Serving.{Hand, Handover};

use call::{Outcome, budget};
use hear::hear;
use say::say;
use session::Session;
use std::io::Write;

// A session that was handed something: how much it took, how much it answered, and whether that was written.
// No Result: `Hand` and `Handover` say what it took and where it stands after a write that failed too.
#[derive(Clone, Copy)]
struct Handed {
    next: Session,
    took: usize,
    wrote: usize,
    written: bool,
}

// Hands the session what is left of a block, and writes what it answers.
// `2 * line_top ≤ length out.old` is of lent memory, which each function borrows anew.
fn hand(to: &mut impl Write, session: Session, piece: &[u8], out: &mut [u8]) -> Handed
    requires { (1 ≤ length piece.now) × (2 * line_top ≤ length out.old) }
    ensures { Hand session piece.now result.took (take result.wrote out.new) result.next }
{
    let fed = session.handle(piece, out);
    Handed {
        next: fed.next,
        took: fed.took,
        wrote: fed.wrote,
        written: say(to, out, fed.wrote),
    }
}

// Whether more of a block is handed over: nothing after a write that failed.
fn goes_on(at: usize, have: usize, written: bool) -> bool
    ensures { result ≡ (ltb at have && written) }
{
    at < have && written
}

// A session after a block, and whether all its answers were written. No Result: `Handover` has the session after a write that failed too.
#[derive(Clone, Copy)]
struct Served {
    next: Session,
    written: bool,
}

// Hands the first bytes of a block to the session, piece by piece.
fn serve(to: &mut impl Write, session: Session, block: &[u8], have: usize, out: &mut [u8]) -> Served
    requires { (have ≤ length block.now) × (2 * line_top ≤ length out.old) }
    ensures { Handover session (take have block.now) result.written result.next }
{
    let mut next = session;
    let mut at: usize = 0;
    let mut written = true;
    // A while: the session takes a piece of any length.
    while goes_on(at, have, written) {
        let handed = hand(to, next, &block[at..have], out);
        next = handed.next;
        at += handed.took;
        written = handed.written;
    }
    Served { next, written }
}

// Whether one more block is read: none after the end of the input or of the session, or after a failure.
fn reads_on(heard: Outcome, written: bool, ended: bool) -> bool
    ensures { result ≡ ((ltb 0 (result_unwrap_or heard 0) && written) && not ended) }
{
    0 < heard.unwrap_or(0) && written && !ended
}

fn output_failed(errors: &mut impl Write) {
    let _ = errors.write_all(b"station: output failed\n");
}

// Writes what the end of the input leads to.
fn close(to: &mut impl Write, errors: &mut impl Write, session: Session, out: &mut [u8])
    requires { 2 * line_top ≤ length out.old }
{
    let fed = session.finish(out);
    if !say(to, out, fed.wrote) {
        output_failed(errors);
    }
}

// The end: of the input, which is answered, or by a failure, which standard error is told.
fn part(
    to: &mut impl Write,
    errors: &mut impl Write,
    session: Session,
    read: bool,
    written: bool,
    out: &mut [u8],
)
    requires { 2 * line_top ≤ length out.old }
{
    if !written {
        output_failed(errors);
        return;
    }
    if !read {
        let _ = errors.write_all(b"station: input failed\n");
        return;
    }
    close(to, errors, session, out);
}

fn main(rt: HostRuntime) {
    let mut from = rt.stdin();
    let mut to = rt.stdout();
    let mut session = Session::start();
    let mut space = [0u8; 65536];
    let mut room = [0u8; 65536];
    let block: &mut [u8] = &mut space;
    let out: &mut [u8] = &mut room;
    let mut read = true;
    let mut written = true;
    for _ in 0..budget() {
        let heard = hear(&mut from, block);
        let served = serve(&mut to, session, block, heard.unwrap_or(0), out);
        session = served.next;
        read = heard.is_ok();
        written = served.written;
        if !reads_on(heard, written, session.ended()) {
            break;
        }
    }
    part(&mut to, &mut rt.stderr(), session, read, written, out);
}

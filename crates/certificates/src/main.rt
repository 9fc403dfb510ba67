// The program `certificates`: DAY SERIAL... as arguments and an export of the store on standard input; on standard output the K lines, or one line X,
// and on standard error the place of what was refused.
#![tactic(auto)]

ghost use Rattle.std.specs.Prelude.{◌≡◌, ◌||◌, ◌≤◌, ltb, length, MatchResult};
ghost use Rattle.certificates.specs.declared.Unheard.{Unheard};
ghost use Rattle.certificates.specs.Hearing.{Hears};

use message::Certificate;
use std::env::{Env, FillError};
use std::io;
use std::io::Read;
use store::kept::KEPT;
use store::put::RUNS_TEXT;
use store::{Kept, Place, Serials, name_of};

// Places for all that is kept of an export.
fn space() -> [u8; KEPT]
    ensures { 307201 ≡ length result }
{
    [0u8; KEPT]
}

// Argument i at the start of a text, and its length, which is 0 where it is missing or longer than the text.
fn argument(rt: &impl Env, i: usize, text: &mut [u8]) -> usize
    ensures { result ≤ length text.new }
{
    rt.arg(i, text).unwrap_or(0)
}

fn is_there(rt: &impl Env, i: usize) -> bool {
    match rt.arg(i, &mut [0u8; 1]) {
        Ok(_) => true,
        Err(FillError::TooLong) => true,
        Err(FillError::NotPresent) => false,
    }
}

// How many arguments there are, the program's name among them.
fn arguments(rt: &impl Env) -> usize {
    (0..usize::MAX)
        .find(|i| !is_there(rt, *i))
        .unwrap_or(usize::MAX)
}

// Argument i as a name; one that is missing, or longer than a name can be, has no bytes and so is no name.
fn serial(rt: &impl Env, i: usize) -> Certificate {
    let mut text = [0u8; 16];
    let n = argument(rt, i, &mut text);
    name_of(&text[..n])
}

// The arguments after the day, of which the first sixteen are looked at.
fn serials(rt: &impl Env) -> Serials {
    Serials {
        m: arguments(rt).saturating_sub(2),
        each: std::array::from_fn(|i| serial(rt, i + 2)),
    }
}

// Writes to standard error; nothing can be told of a failure there.
fn say(errors: &impl Print, text: &[u8]) {
    let _ = errors.write_all(text);
}

// A word, a number and the line's end, each written whatever became of the one before.
fn tell_number(errors: &impl Print, what: &[u8], n: u32) {
    say(errors, what);
    let _ = print!(errors; "{n}");
    say(errors, b"\n");
}

fn tell_place(errors: &impl Print, place: Place) {
    match place {
        Place::Nowhere => {}
        Place::Line { line } => tell_number(errors, b"line ", line),
        Place::Day => say(errors, b"day\n"),
        Place::Count => say(errors, b"serials\n"),
        Place::Run { run } => tell_number(errors, b"run ", run),
    }
}

// How it reads on: where a block came, or where a read was interrupted, which is made again.
fn reads_on(n: usize, again: bool) -> bool
    ensures { result ≡ (ltb 0 n || again) }
{
    0 < n || again
}

// What was kept before a read that failed.
#[derive(Clone, Copy)]
struct Unheard {
    kept: Kept,
}

// Reads standard input to its end, block by block, and keeps and counts all of it. An interrupted read is made again, the last one not.
fn hear(from: &mut impl Read, held: &mut [u8]) -> Result<Kept, Unheard>
    ensures { MatchResult result (λ kept. Hears kept held.old held.new) (λ (unheard : Unheard). Hears unheard.kept held.old held.new) }
{
    let mut room = [0u8; 65536];
    let block: &mut [u8] = &mut room;
    let mut kept = Kept::start();
    for left in (0..u64::MAX).rev() {
        match from.read(block) {
            Ok(n) => {
                if !reads_on(n, false) {
                    return Ok(kept);
                }
                kept = kept.on(&block[..n], held);
            }
            Err(error) => {
                if !reads_on(0, error.kind() == io::ErrorKind::Interrupted) || left == 0 {
                    return Err(Unheard { kept });
                }
            }
        }
    }
    Ok(kept)
}

// Writes the answer; the place goes with it only where that could be written.
fn answer(rt: &(impl Env + Print), errors: &impl Print, kept: Kept, held: &[u8]) {
    let mut day = [0u8; 8];
    let mut out = [0u8; RUNS_TEXT];
    let n = argument(rt, 1, &mut day);
    let told = kept.answer(held, &day[..n], serials(rt), &mut out);
    let len = told.len;
    let place = told.place;
    if rt.write_all(&out[..len]).is_err() {
        say(errors, b"certificates: output failed\n");
        return;
    }
    tell_place(errors, place);
}

fn main(rt: HostRuntime) {
    let mut room = space();
    let held: &mut [u8] = &mut room;
    match hear(&mut rt.stdin(), held) {
        Ok(kept) => answer(&rt, &rt.stderr(), kept, held),
        Err(_) => say(&rt.stderr(), b"certificates: input failed\n"),
    }
}

// The answers of a step, written: each line sent, and X for a refusal.
ghost use Rattle.std.specs.Prelude.{◌≡◌, ◌++◌, take};
ghost use Rattle.lines.specs.Writing.{answer_of, buffer_of};
ghost use Rattle.session.specs.Feeding.{done_length, fit_text, or_nothing, put_text, rest_text};
ghost use Rattle.fields.specs.Put.{put};
ghost use Rattle.session.specs.Turn.{verdict_text};

use controller::Controller;
use fields::put_part;
use lines::write::{Written, write, write_plain, write_refusal};
use message::Head;
use plan::Sent;
use units::{Numbers, Refusal, Verdict, answer_number};

// What the writer refuses by 6 counts as nothing written.
fn or_nothing(written: Written) -> Written
    ensures { result ≡ or_nothing written }
{
    // By its number: the arms of a pattern in a pattern have no facts that a proof may cite.
    if answer_number(written) == Refusal::Range.number() {
        return Ok(0);
    }
    written
}

// The line of a message that is sent.
fn put_sent(c: Controller, numbers: Numbers, head: Head, out: &mut [u8]) -> Written
    ensures { (result ≡ answer_of (fit_text numbers c head) out.old) × (out.new ≡ buffer_of (fit_text numbers c head) out.old) }
{
    if head.is_plain() {
        return or_nothing(write_plain(head, numbers.group, out));
    }
    or_nothing(write(c.message(numbers, head), numbers.group, out))
}

// X where something was refused.
pub(crate) fn put_verdict(verdict: Verdict, out: &mut [u8]) -> Written
    ensures { (result ≡ answer_of (verdict_text verdict) out.old) × (out.new ≡ buffer_of (verdict_text verdict) out.old) }
{
    match verdict {
        Ok(()) => Ok(0),
        Err(why) => write_refusal(why, out),
    }
}

// What comes after the first line.
// (second, verdict, out) go on as a step answered them: a struct of the first two would be made here to be taken apart at once.
#[tactic(auto, unfolding(crate::specs::Feeding::rest_text))]
fn put_rest(
    c: Controller,
    numbers: Numbers,
    second: Sent,
    verdict: Verdict,
    out: &mut [u8],
) -> Written
    ensures { (result ≡ answer_of (rest_text numbers c verdict second) out.old) × (out.new ≡ buffer_of (rest_text numbers c verdict second) out.old) }
{
    match second {
        None => put_verdict(verdict, out),
        Some(head) => put_sent(c, numbers, head, out),
    }
}

// How much was written.
pub(crate) fn length_of(written: Written) -> usize
    ensures { result ≡ done_length written }
{
    written.unwrap_or(0)
}

// Puts the first n bytes of a line at the start of a buffer that has room for them.
fn put_first(out: &mut [u8], line: &[u8], n: usize)
    ensures { out.new ≡ put out.old 0 (take n line.now) }
{
    put_part(out, 0, &line[..n.min(line.len())]);
}

// Two parts, or nothing where there is no room for both: the second is written first, past the place of the first.
#[inline(never)] // so that its line is in no other frame
fn put_both(
    c: Controller,
    numbers: Numbers,
    head: Head,
    second: Sent,
    verdict: Verdict,
    out: &mut [u8],
) -> Written
    ensures { (result ≡ answer_of (fit_text numbers c head ++ rest_text numbers c verdict second) out.old) × (out.new ≡ buffer_of (fit_text numbers c head ++ rest_text numbers c verdict second) out.old) }
{
    let mut line = [0u8; 600];
    let len = length_of(put_sent(c, numbers, head, &mut line));
    if out.len() < len {
        return Err(Refusal::Room);
    }
    let more = put_rest(c, numbers, second, verdict, &mut out[len..])?;
    put_first(out, &line, len);
    Ok(len + more)
}

// Writes what a step answers.
#[tactic(auto, unfolding(crate::specs::Feeding::put_text, crate::specs::Feeding::rest_text, crate::specs::Turn::verdict_text))]
pub(crate) fn put_answer(
    c: Controller,
    numbers: Numbers,
    first: Sent,
    second: Sent,
    verdict: Verdict,
    out: &mut [u8],
) -> Written
    ensures { (result ≡ answer_of (put_text numbers c second verdict first) out.old) × (out.new ≡ buffer_of (put_text numbers c second verdict first) out.old) }
{
    let Some(head) = first else {
        return put_verdict(verdict, out);
    };
    match (second, verdict) {
        (None, Ok(())) => put_sent(c, numbers, head, out),
        _ => put_both(c, numbers, head, second, verdict, out),
    }
}

// THE WRITER: a message's line straight into a lent buffer.
ghost use Rattle.std.specs.Prelude.{◌≡◌, ◌+◌, ◌*◌, ◌≤◌, leb, length};
ghost use Rattle.std.proofs.lemmas.List.Edits.{sets};
ghost use Rattle.fields.specs.Text.{tabbed};
ghost use Rattle.message.specs.Message.{message_fits, plain};
ghost use Rattle.lines.specs.Writing.{answer_of, buffer_of, line_of, plain_fits, refusal_line, spell_line, texts_to, write_answer, write_buffer};

use crate::kind::Kind;
use crate::numbers::{LineNumbers, head_numbers, kind_is, numbers_of};
use crate::table::quantity_at;
use fields::text::{LINE_FEED, TAB};
use fields::{put_at, width};
use message::{Head, Message};
use units::{Group, Refusal};

// How many bytes were written, or why none.
pub type Written = Result<usize, Refusal>;

// The bytes of the numbers, each with its tab.
fn widths(kind: Kind, numbers: &[u64]) -> usize
    requires { length numbers.now ≤ 34 }
    ensures { (result ≡ length (tabbed (texts_to kind numbers.now (length numbers.now)))) × (result ≤ 17 * length numbers.now) }
{
    let mut sum = 0;
    for (k, number) in numbers.iter().enumerate() {
        sum += 1 + width(quantity_at(kind, k).spelling(), *number);
    }
    sum
}

// Puts the numbers, each after its tab, from place 1 on.
fn put_numbers(buf: &mut [u8], kind: Kind, numbers: &[u64]) -> usize
    requires { 1 + length (tabbed (texts_to kind numbers.now (length numbers.now))) ≤ length buf.old }
    ensures { (result ≡ 1 + length (tabbed (texts_to kind numbers.now (length numbers.now)))) × (buf.new ≡ sets buf.old 1 (tabbed (texts_to kind numbers.now (length numbers.now)))) }
{
    let mut at = 1;
    for (k, number) in numbers.iter().enumerate() {
        buf[at] = TAB;
        at = put_at(buf, at + 1, quantity_at(kind, k).spelling(), *number);
    }
    at
}

// Whether so many bytes are enough for a line; they are counted only where the longest line of so many numbers would not fit.
fn is_enough_for(len: usize, kind: Kind, numbers: &LineNumbers) -> bool
    ensures { result ≡ leb (2 + length (tabbed (texts_to kind numbers.now.0 (length numbers.now.0)))) len }
{
    let numbers = numbers.as_slice();
    if 2 + 17 * numbers.len() <= len {
        return true;
    }
    2 + widths(kind, numbers) <= len
}

// Puts a whole line, or 16 where there is no room for it.
pub(crate) fn put_line(buf: &mut [u8], kind: Kind, numbers: &LineNumbers) -> Written
    ensures { (result ≡ answer_of (line_of kind numbers.now.0) buf.old) × (buf.new ≡ buffer_of (line_of kind numbers.now.0) buf.old) }
{
    if !is_enough_for(buf.len(), kind, numbers) {
        return Err(Refusal::Room);
    }
    buf[0] = kind.letter();
    let end = put_numbers(buf, kind, numbers.as_slice());
    buf[end] = LINE_FEED;
    Ok(end + 1)
}

// Writes a message's line: 6 before 16, and nothing where either is given.
pub fn write(message: Message, group: Group, buf: &mut [u8]) -> Written
    ensures { (result ≡ write_answer (message_fits group message) (spell_line group message) buf.old) × (buf.new ≡ write_buffer (message_fits group message) (spell_line group message) buf.old) }
{
    if !message.in_range(group) {
        return Err(Refusal::Range);
    }
    let numbers = numbers_of(message, group);
    put_line(buf, kind_is(message.head), &numbers)
}

// Writes the line of a message that carries no array, from its head alone: 6 also where it is of a kind that carries one.
pub fn write_plain(head: Head, group: Group, buf: &mut [u8]) -> Written
    ensures { (result ≡ write_answer (plain_fits group head) (spell_line group (plain head)) buf.old) × (buf.new ≡ write_buffer (plain_fits group head) (spell_line group (plain head)) buf.old) }
{
    if head.is_plain() & group.in_range() & head.in_range(group) {
        let numbers = head_numbers(head);
        return put_line(buf, kind_is(head), &numbers);
    }
    Err(Refusal::Range)
}

// Writes the line X of a refusal, which needs no group.
pub fn write_refusal(why: Refusal, buf: &mut [u8]) -> Written
    ensures { (result ≡ answer_of (refusal_line why) buf.old) × (buf.new ≡ buffer_of (refusal_line why) buf.old) }
{
    let numbers = LineNumbers::of(&[u64::from(why.number())]);
    put_line(buf, Kind::Refused, &numbers)
}

// The line at hand read: what is held of it, and the next piece up to its line feed.
ghost use Rattle.std.specs.Prelude.{◌≡◌, length, take};
ghost use Rattle.fields.specs.Cut.{line_ending, line_in};
ghost use Rattle.fields.specs.Lines.{feed_at};
ghost use Rattle.lines.specs.Reading.{read_line};
ghost use Rattle.lines.specs.Settling.{settle_line};

use fields::{Carry, scan};
use lines::Line;
use lines::read::{First, read, read_first};
use lines::settle::{Settled, Settling};
use message::{Head, Message};
use units::Group;

// What a line of the first n bytes says.
fn read_part(bytes: &[u8], n: usize, group: Group) -> Line
    ensures { result ≡ read_line group (take n bytes.now) }
{
    read(&bytes[..n.min(bytes.len())], group)
}

// The first n bytes as a line of the settings.
fn take_first(settling: Settling, bytes: &[u8], n: usize) -> Settled
    ensures { result ≡ settle_line settling (take n bytes.now) }
{
    settling.take(&bytes[..n.min(bytes.len())])
}

// What the line says that ends with the first n bytes of an input.
pub(crate) fn read_on(carry: Carry, input: &[u8], n: usize, group: Group) -> Line
    ensures { result ≡ read_line group (line_in carry (take n input.now)) }
{
    if carry.is_empty() {
        return read_part(input, n, group);
    }
    let whole = carry.hold(input, n);
    read_part(&whole.bytes(), whole.len(), group)
}

// The same of a line of the settings.
pub(crate) fn take_on(carry: Carry, settling: Settling, input: &[u8], n: usize) -> Settled
    ensures { result ≡ settle_line settling (line_in carry (take n input.now)) }
{
    if carry.is_empty() {
        return take_first(settling, input, n);
    }
    let whole = carry.hold(input, n);
    take_first(settling, &whole.bytes(), whole.len())
}

// A line of no account stands for one that is not read: `Core::first` promises a `First` at every stage, and `Heard` says which line counts.
// The place of the first line feed, where the line is not read here.
pub(crate) fn unread(input: &[u8]) -> First
    ensures { result.feed ≡ feed_at input.now }
{
    First {
        line: Line {
            verdict: Ok(()),
            message: Message::plain(Head::Refused { number: 0 }),
        },
        feed: scan(input).feed,
    }
}

// The line that ends in an input, and the place of its line feed; without one the line is not read.
fn first_on(carry: Carry, input: &[u8], group: Group) -> First
    ensures { (result.feed ≡ feed_at input.now) × ((feed_at input.now ≡ length input.now → ⊥) → result.line ≡ read_line group (line_ending carry input.now)) }
{
    let first = unread(input);
    let feed = first.feed;
    if feed == input.len() {
        return first;
    }
    let line = read_on(carry, input, feed + 1, group);
    First { line, feed }
}

// The same, in one pass where nothing is held.
pub(crate) fn first(carry: Carry, input: &[u8], group: Group) -> First
    ensures { (result.feed ≡ feed_at input.now) × ((feed_at input.now ≡ length input.now → ⊥) → result.line ≡ read_line group (line_ending carry input.now)) }
{
    if carry.is_empty() {
        return read_first(input, group);
    }
    first_on(carry, input, group)
}

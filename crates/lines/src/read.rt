// THE READER: what a line says, or why it is refused.
ghost use Rattle.std.specs.Prelude.{◌≡◌, true, ℕ, ◌<◌, length, get_or};
ghost use Rattle.units.specs.Settings.{group_fits};
ghost use Rattle.fields.specs.Text.{first_field, later_fields, scanned};
ghost use Rattle.lines.specs.Straight.{Trod};
ghost use Rattle.lines.specs.Table.{count_of, kind_of};
ghost use Rattle.lines.specs.Reading.{first_line, first_of, kind_in, line_with, read_line, read_text, read_values, refused_line};

use crate::counted::Counted;
use crate::kind::{Kind, kind_of};
use crate::straight::{numbers_in, reading_in};
use crate::typed::message_of;
use crate::values::read_values;
use fields::text::{LINE_FEED, ends_at, is_at};
use fields::{Scan, scan};
use message::{Head, Message};
use units::limits::LINE;
use units::{Group, Refusal, Verdict};

// A line's verdict, and its message; of a refused line X with its number.
// The message stands beside the verdict: `read_line` promises X with its number for a refused line, and the laws of the wire name both.
#[derive(Clone, Copy)]
pub struct Line {
    pub verdict: Verdict,
    pub message: Message,
}

fn refused(why: Refusal) -> Line
    ensures { result ≡ refused_line why }
{
    Line {
        verdict: Err(why),
        message: Message::plain(Head::Refused {
            number: why.number(),
        }),
    }
}

// The kind that a text's first field names.
#[tactic(auto, using(crate::proofs::Openings::kind_none, crate::proofs::Openings::kind_one, crate::proofs::Openings::kind_more, crate::proofs::Openings::open_within))]
fn kind_in(text: &[u8]) -> Option<Kind>
    ensures { result ≡ kind_in (first_field text.now) }
{
    if ends_at(text, 0) {
        return None;
    }
    if ends_at(text, 1) {
        return kind_of(text[0]);
    }
    None
}

// The line of a known kind.
fn read_known(line: Counted<'_>, kind: Kind, group: Group) -> Line
    requires { length (first_field line.text.now) ≡ 1 }
    ensures { result ≡ line_with group kind (read_values kind group (later_fields line.entry.text.now)) }
{
    let mut v = [0u64; 34];
    match read_values(line, kind, group, &mut v) {
        Ok(()) => Line {
            verdict: Ok(()),
            message: message_of(kind, group, &v),
        },
        Err(why) => refused(why),
    }
}

#[tactic(auto, using(crate::proofs::Openings::text_found))]
fn read_text(line: Counted<'_>, group: Group) -> Line
    ensures { result ≡ read_text group line.entry.text.now }
{
    match kind_in(line.text) {
        Some(kind) => read_known(line, kind, group),
        None => refused(Refusal::Kind),
    }
}

// What a line of any bytes says in a group.
pub fn read(line: &[u8], group: Group) -> Line
    ensures { result ≡ read_line group line.now }
{
    if !group.in_range() {
        return refused(Refusal::Range);
    }
    if LINE < line.len() {
        return refused(Refusal::Long);
    }
    let seen = scan(line);
    if seen.feed + 1 != line.len() {
        return refused(Refusal::Unended);
    }
    read_text(Counted::of(line, seen), group)
}

// What the reader says of an input's first line, and the place of its line feed; the input's length where there is none.
// No Option of a feed: `first_line` gives the length where there is none.
#[derive(Clone, Copy)]
pub struct First {
    pub line: Line,
    pub feed: usize,
}

// The first line of an input that is scanned already.
fn read_seen(input: &[u8], group: Group, seen: Scan) -> Line
    requires { seen ≡ scanned input.now }
    ensures { result ≡ read_line group (first_of input.now) }
{
    let feed = seen.feed;
    if !group.in_range() {
        return refused(Refusal::Range);
    }
    if LINE < feed {
        return refused(Refusal::Long);
    }
    if feed == input.len() {
        return refused(Refusal::Unended);
    }
    if feed == LINE {
        return refused(Refusal::Long);
    }
    read_text(Counted::of(input, seen), group)
}

// What the first line of an input says: its fields are counted, then each is judged.
#[tactic(auto, using(crate::proofs::Firsts::first_whole_line))]
fn read_with_care(input: &[u8], group: Group) -> First
    ensures { result ≡ first_line group input.now }
{
    let seen = scan(input);
    let line = read_seen(input, group, seen);
    First {
        line,
        feed: seen.feed,
    }
}

// The same, of a line whose numbers were read straight on to a place, where it has to end; it is read again with care where they were not, or where it goes on.
#[inline(always)] // so that M, which has three numbers, keeps no more of them
fn read_to(input: &[u8], kind: Kind, group: Group, v: &[u64; 34], trail: Option<usize>) -> First
    requires { (group_fits group ≡ true) × (0 < length input.now) × (kind_of (get_or input.now 0 0) ≡ Some kind) × ((at : ℕ) → trail ≡ Some at → Trod kind group input.now v.now (count_of kind group (get_or v.now 2 0)) at) }
    ensures { result ≡ first_line group input.now }
{
    match trail {
        Some(at) if is_at(input, at, LINE_FEED) => First {
            line: Line {
                verdict: Ok(()),
                message: message_of(kind, group, v),
            },
            feed: at,
        },
        _ => read_with_care(input, group),
    }
}

// What the first line of an input says in a group, in one pass over its bytes where nothing is refused.
pub fn read_first(input: &[u8], group: Group) -> First
    ensures { result ≡ first_line group input.now }
{
    if !group.in_range() || input.is_empty() {
        return read_with_care(input, group);
    }
    match kind_of(input[0]) {
        Some(Kind::Reading) => {
            let mut v = [0u64; 34];
            let trail = reading_in(input, group, &mut v);
            read_to(input, Kind::Reading, group, &v, trail)
        }
        Some(kind) => {
            let mut v = [0u64; 34];
            let trail = numbers_in(input, kind, group, &mut v);
            read_to(input, kind, group, &v, trail)
        }
        None => read_with_care(input, group),
    }
}

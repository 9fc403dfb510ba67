// One line of an export: serial, day, certificate, factor.
ghost use Rattle.std.specs.Prelude.{◌≡◌};
ghost use Rattle.store.specs.Row.{no_row, rest_at, row_at, row_of};

use crate::name::{name_at, no_name};
use fields::text::Scan;
use fields::{read_day, read_factor, scan};
use message::Certificate;
use units::Refusal;
use units::limits::{FACTOR_LOW, FACTOR_TOP, LINE};

#[derive(Clone, Copy)]
pub struct Row {
    pub serial: Certificate,
    pub day: u64,
    pub certificate: Certificate,
    pub factor: u64,
}

// No row: its day is no date.
// No Option of a row: definition `newest` begins with it and goes by its day, 0, which is before every day (edits after_the_day, last_line_of_a_meter).
pub(crate) fn no_row() -> Row
    ensures { result ≡ no_row }
{
    let none = no_name();
    Row {
        serial: none,
        day: 0,
        certificate: none,
        factor: 0,
    }
}

// The last two fields, of which the first starts at a place.
#[tactic(auto, unfolding(crate::specs::Row::rest_at))]
fn rest_at(text: &[u8], serial: Certificate, day: u64, at: usize) -> Result<Row, Refusal>
    ensures { result ≡ rest_at text.now serial day at }
{
    let paper = name_at(text, at).ok_or(Refusal::Form)?;
    let low = u64::from(FACTOR_LOW);
    let factor = read_factor(text, paper.next, low, u64::from(FACTOR_TOP))?;
    Ok(Row {
        serial,
        day,
        certificate: paper.name,
        factor: factor.n,
    })
}

// Four fields from the left.
#[tactic(auto, unfolding(crate::specs::Row::row_at))]
fn row_at(text: &[u8]) -> Result<Row, Refusal>
    ensures { result ≡ row_at text.now }
{
    let serial = name_at(text, 0).ok_or(Refusal::Form)?;
    let day = read_day(text, serial.next)?;
    rest_at(text, serial.name, day.n, day.next)
}

// A line of an export as a row, or its first refusal.
#[tactic(auto, using(fields::proofs::Scans::scan_inside, crate::proofs::Reading::line_over, crate::proofs::Reading::line_open, crate::proofs::Reading::line_fields, crate::proofs::Reading::line_row))]
pub fn row_of(line: &[u8]) -> Result<Row, Refusal>
    ensures { result ≡ row_of line.now }
{
    if LINE < line.len() {
        return Err(Refusal::Long);
    }
    let Scan { tabs, feed } = scan(line);
    if feed + 1 != line.len() {
        return Err(Refusal::Unended);
    }
    if tabs != 3 {
        return Err(Refusal::Fields);
    }
    row_at(&line[..feed])
}

// The lines of an export, gathered into rows.
ghost use Rattle.std.specs.Prelude.{◌≡◌, ◌+◌, ◌≤◌, min, drop, length, IfOk};
ghost use Rattle.fields.specs.Lines.{feed_at, lines_of};
ghost use Rattle.store.specs.Rows.{gathered_rows, rows_of};

use crate::row::{Row, row_of};
use fields::scan;
use units::Refusal;

// The certificates that an export may have, one a line.
pub const ROWS: usize = 512;

// Why a line is refused, and its number from 1.
#[derive(Clone, Copy)]
pub struct BadLine {
    pub why: Refusal,
    pub line: u32,
}

// The place after the line that starts at a place.
#[tactic(auto, using(crate::proofs::Gathering::end_fits, crate::proofs::Gathering::end_after, crate::proofs::Gathering::end_last))]
fn line_end(export: &[u8], at: usize) -> usize
    requires { at ≤ length export.now }
    ensures { result ≡ min (length export.now) (at + feed_at (drop at export.now) + 1) }
{
    let end = at + scan(&export[at..]).feed;
    if end < export.len() { end + 1 } else { end }
}

// All lines from the top, up to the first that is bad, put into 512 places; the answer is how many.
pub(crate) fn gather(export: &[u8], rows: &mut [Row]) -> Result<usize, BadLine>
    requires { (length (lines_of export.now) ≤ 512) × (length rows.old ≡ 512) }
    ensures { (gathered_rows result rows.new ≡ rows_of export.now) × IfOk result (λ n. n ≤ 512) }
{
    let mut n: usize = 0;
    let mut at: usize = 0;
    // A while: it goes on by a line, whose bytes vary.
    while at < export.len() {
        let end = line_end(export, at);
        match row_of(&export[at..end]) {
            Ok(row) => rows[n] = row,
            Err(why) => {
                return Err(BadLine {
                    why,
                    line: (n + 1) as u32,
                });
            }
        }
        n += 1;
        at = end;
    }
    Ok(n)
}

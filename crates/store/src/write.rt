// THE STORE'S ANSWER: the checks in their order, then the K lines.
ghost use Rattle.std.specs.Prelude.{◌≡◌, ◌≤◌, length};
ghost use Rattle.fields.specs.Day.{day_in};
ghost use Rattle.store.specs.Stored.{date_judged, days_judged, lines_judged, serials_judged, settings_judged, stored};

use crate::count::Count;
use crate::gather::{BadLine, ROWS, gather};
use crate::picked::{lacking, pick_rows, settings_of};
use crate::put::write_lines;
use crate::repeated::repeated_at;
use crate::row::{Row, no_row};
use crate::stored::{Place, Refused, Serials, bad_serial};
use fields::whole_day;
use message::Settings;
use units::Refusal;
use units::limits::RUNS;

impl From<BadLine> for Refused {
    ghost use Rattle.store.specs.declared.stored.Place.TheVariants.{Line};

    ghost from_gives = { λ bad r. r ≡ record { why = bad.why; place = Line bad.line } };

    fn from(bad: BadLine) -> Refused {
        Refused {
            why: bad.why,
            place: Place::Line { line: bad.line },
        }
    }
}

// 19 for more than 512 lines.
fn check_lines(export: &[u8]) -> Result<(), Refused>
    ensures { result ≡ lines_judged export.now }
{
    let count = Count::start().on(export);
    if ROWS < count.lines() {
        return Err(Refused {
            why: Refusal::Full,
            place: Place::Nowhere,
        });
    }
    Ok(())
}

// 5 or 6 for the given day.
fn date_of(day: &[u8]) -> Result<u64, Refused>
    ensures { result ≡ date_judged (day_in 0 day.now) }
{
    match whole_day(day) {
        Ok(given) => Ok(given.n),
        Err(why) => Err(Refused {
            why: Refusal::from(why),
            place: Place::Day,
        }),
    }
}

// 6 for the number of serials, then 5 for the first that is none.
fn check_serials(serials: Serials) -> Result<(), Refused>
    ensures { result ≡ serials_judged serials }
{
    if serials.m < 1 || RUNS < serials.m {
        return Err(Refused {
            why: Refusal::Range,
            place: Place::Count,
        });
    }
    match bad_serial(serials) {
        Some(run) => Err(Refused {
            why: Refusal::Form,
            place: Place::Run { run: run as u32 },
        }),
        None => Ok(()),
    }
}

// 17 where two certificates of any meter share a day.
fn check_days(rows: &[Row]) -> Result<(), Refused>
    requires { length rows.now ≤ 512 }
    ensures { result ≡ days_judged rows.now }
{
    match repeated_at(rows) {
        Some(row) => Err(Refused {
            why: Refusal::SameDay,
            place: Place::Line {
                line: (row + 1) as u32,
            },
        }),
        None => Ok(()),
    }
}

// 18 where a run has no certificate in force, else settings of all runs' newest.
fn settings_in_force(rows: &[Row], serials: Serials, day: u64) -> Result<Settings, Refused>
    requires { serials.m ≤ 16 }
    ensures { result ≡ settings_judged serials day rows.now }
{
    let picked = pick_rows(rows, serials, day);
    let runs = &picked[..serials.m];
    match lacking(runs) {
        Some(run) => Err(Refused {
            why: Refusal::NoneInForce,
            place: Place::Run { run: run as u32 },
        }),
        None => Ok(settings_of(runs)),
    }
}

// The K lines of each run's newest certificate not after a day, from an export of the store: 19, the lines' own refusals, then the others.
pub fn write_runs(
    export: &[u8],
    day: &[u8],
    serials: Serials,
    buf: &mut [u8],
) -> Result<usize, Refused>
    ensures { (result ≡ (stored export.now day.now serials buf.old).0) × (buf.new ≡ (stored export.now day.now serials buf.old).1) }
{
    check_lines(export)?;
    let mut rows = [no_row(); ROWS];
    let n = gather(export, &mut rows)?;
    let rows = &rows[..n];
    let date = date_of(day)?;
    check_serials(serials)?;
    check_days(rows)?;
    write_lines(settings_in_force(rows, serials, date)?, buf)
}

// Days as YYYYMMDD in the Gregorian calendar.
ghost use Rattle.std.specs.Prelude.{◌≡◌};
ghost use Rattle.fields.specs.Day.{date_fits, day_at, day_in, day_judged, days_in, is_leap};

use crate::digit::read_digits;
use crate::field::{Fault, Field};
use crate::text::ends_at;

// The digits of a day.
pub const DAY_DIGITS: usize = 8;

// Whether a year has a 29th of February.
fn is_leap(year: u64) -> bool
    ensures { result ≡ is_leap year }
{
    year % 4 == 0 && (year % 100 != 0 || year % 400 == 0)
}

// How many days a month has.
#[tactic(auto, unfolding(crate::specs::Day::days_in, crate::specs::Digits::pick))]
fn days_in(year: u64, month: u64) -> u64
    ensures { result ≡ days_in year month }
{
    match month {
        2 if is_leap(year) => 29,
        2 => 28,
        4 | 6 | 9 | 11 => 30,
        _ => 31,
    }
}

// Whether there is such a date.
#[tactic(auto, unfolding(crate::specs::Day::date_fits, units::specs::Within::within))]
fn is_date(n: u64) -> bool
    ensures { result ≡ date_fits n }
{
    let year = n / 10000;
    let month = n / 100 % 100;
    let day = n % 100;
    let last = days_in(year, month);
    (1..=9999).contains(&year) && (1..=12).contains(&month) && (1..=last).contains(&day)
}

// The day that eight digits say.
#[tactic(auto, unfolding(crate::specs::Day::day_judged, crate::specs::Digits::pick))]
fn dated(n: u64, next: usize) -> Result<Field, Fault>
    ensures { result ≡ day_judged next (Some n) }
{
    if is_date(n) {
        return Ok(Field { n, next });
    }
    Err(Fault::Range)
}

// The day in the field at a place.
pub fn read_day(text: &[u8], at: usize) -> Result<Field, Fault>
    ensures { result ≡ day_at text.now at }
{
    let n = read_digits(text, at, DAY_DIGITS).ok_or(Fault::Form)?;
    if !ends_at(text, at + DAY_DIGITS) {
        return Err(Fault::Form);
    }
    dated(n, at + DAY_DIGITS + 1)
}

// The day that a text is as a whole.
pub fn whole_day(text: &[u8]) -> Result<Field, Fault>
    ensures { result ≡ day_in 0 text.now }
{
    if text.len() != DAY_DIGITS {
        return Err(Fault::Form);
    }
    let n = read_digits(text, 0, DAY_DIGITS).ok_or(Fault::Form)?;
    dated(n, 0)
}

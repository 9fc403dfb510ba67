// Factors: one digit, a point and exactly FACTOR_DIGITS digits, held in units of 1 / FACTOR_SCALE.
ghost use Rattle.std.specs.Prelude.{◌≡◌, ◌+◌, ◌≤◌, length};
ghost use Rattle.fields.specs.Field.{read_at};
ghost use Rattle.fields.specs.Put.{put, put_end, written};
ghost use Rattle.fields.specs.declared.spelling.Spelling.{Spelling};

use crate::digit::{byte_of, digit, put_fixed};
use crate::field::{Fault, Field, judged};
use crate::put::has_room;
use crate::spelling::{Limit, Spelling};
use crate::text::ends_at;
use units::limits::{FACTOR_DIGITS, FACTOR_SCALE};

pub const POINT: u8 = b'.';

// The factor whose six bytes stand at a place, position by position: a digit, the point, four digits, and then the field's end.
fn factor_at(text: &[u8], at: usize, low: u64, high: u64) -> Result<Field, Fault>
    requires { at + 6 ≤ length text.now }
    ensures { result ≡ read_at text.now at Spelling.Factor low high }
{
    let ones = digit(text[at]);
    if 9 < ones {
        return Err(Fault::Form);
    }
    if text[at + 1] != POINT {
        return Err(Fault::Form);
    }
    let tenths = digit(text[at + 2]);
    if 9 < tenths {
        return Err(Fault::Form);
    }
    let hundredths = digit(text[at + 3]);
    if 9 < hundredths {
        return Err(Fault::Form);
    }
    let thousandths = digit(text[at + 4]);
    if 9 < thousandths {
        return Err(Fault::Form);
    }
    let last = digit(text[at + 5]);
    if 9 < last {
        return Err(Fault::Form);
    }
    if !ends_at(text, at + 6) {
        return Err(Fault::Form);
    }
    let n = 10000 * ones + 1000 * tenths + 100 * hundredths + 10 * thousandths + last;
    let limit = Limit {
        spelling: Spelling::Factor,
        low,
        high,
    };
    judged(limit, n, at + 7)
}

// The factor at a place.
#[tactic(auto, using(crate::proofs::Positions::position_none))]
pub fn read_factor(text: &[u8], at: usize, low: u64, high: u64) -> Result<Field, Fault>
    ensures { result ≡ read_at text.now at Spelling.Factor low high }
{
    if !has_room(text.len(), at, 6) {
        return Err(Fault::Form);
    }
    factor_at(text, at, low, high)
}

// Puts a factor, of at most one digit before the point; the answer is the place after it.
pub fn put_factor(buf: &mut [u8], at: usize, n: u64) -> usize
    ensures { (result ≡ put_end buf.old at (written Spelling.Factor n)) × (buf.new ≡ put buf.old at (written Spelling.Factor n)) }
{
    let whole = n / u64::from(FACTOR_SCALE);
    if 9 < whole {
        return at;
    }
    if !has_room(buf.len(), at, 2 + FACTOR_DIGITS) {
        return at;
    }
    buf[at] = byte_of(whole);
    buf[at + 1] = POINT;
    put_fixed::<10>(buf, at + 2, FACTOR_DIGITS, n)
}

// Decimal numbers: no sign, and no leading zero but 0 itself.
ghost use Rattle.std.specs.Prelude.{◌≡◌, length};
ghost use Rattle.fields.specs.Digits.{decimal};
ghost use Rattle.fields.specs.Field.{plain, read_at};
ghost use Rattle.fields.specs.Text.{field_at};
ghost use Rattle.fields.specs.declared.spelling.Spelling.{Spelling};

use crate::digit::digit;
use crate::field::{Fault, Field, judged};
use crate::spelling::{Limit, Spelling};
use crate::text::{TAB, ends_at};
use units::limits::LABEL_TOP;

// Whether the field at a place has a digit, and no zero before others.
pub(crate) fn is_plain(text: &[u8], at: usize) -> bool
    ensures { result ≡ plain (field_at text.now at) }
{
    if ends_at(text, at) {
        return false;
    }
    if text[at] != b'0' {
        return true;
    }
    ends_at(text, at + 1)
}

// The decimal number at a place. It no longer grows once it is past every limit.
pub(crate) fn read_decimal(text: &[u8], at: usize, low: u64, high: u64) -> Result<Field, Fault>
    ensures { result ≡ read_at text.now at Spelling.Decimal low high }
{
    if !is_plain(text, at) {
        return Err(Fault::Form);
    }
    let limit = Limit {
        spelling: Spelling::Decimal,
        low,
        high,
    };
    let mut n: u64 = 0;
    for i in at..text.len() {
        let b = text[i];
        if b == TAB {
            return judged(limit, n, i + 1);
        }
        let d = digit(b);
        if 9 < d {
            return Err(Fault::Form);
        }
        if n <= u64::from(LABEL_TOP) {
            n = n * 10 + d;
        }
    }
    judged(limit, n, text.len() + 1)
}

// How many digits a number has.
#[tactic(auto, using(crate::proofs::Writing::width_power))]
pub(crate) fn decimal_width(n: u64) -> usize
    ensures { result ≡ length (decimal n) }
{
    n.max(1).ilog10() as usize + 1
}

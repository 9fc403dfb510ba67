// Hex numbers of a fixed width, upper case only.
ghost use Rattle.std.specs.Prelude.{◌≡◌, ◌≤◌, ◌<◌};
ghost use Rattle.fields.specs.Digits.{fixed_in};
ghost use Rattle.fields.specs.Field.{judge};
ghost use Rattle.fields.specs.Text.{field_at, next_at};

use crate::digit::digits_at;
use crate::field::{Fault, Field, judged};
use crate::spelling::Limit;
use crate::text::ends_at;

// The number of k hex digits at a place, judged by a limit.
pub(crate) fn read_hex(text: &[u8], at: usize, k: usize, limit: Limit) -> Result<Field, Fault>
    requires { (0 < k) × (k ≤ 16) }
    ensures { result ≡ judge limit.spelling limit.low limit.high (next_at text.now at) (fixed_in 16 k 0 (field_at text.now at)) }
{
    let n = digits_at::<16>(text, at, k, 0).ok_or(Fault::Form)?;
    if !ends_at(text, at + k) {
        return Err(Fault::Form);
    }
    judged(limit, n, at + k + 1)
}

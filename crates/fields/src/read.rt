// Reading a field by its limit.
ghost use Rattle.std.specs.Prelude.{◌≡◌};
ghost use Rattle.fields.specs.Field.{read_at};

use crate::decimal::read_decimal;
use crate::factor::read_factor;
use crate::field::{Fault, Field};
use crate::hex::read_hex;
use crate::spelling::{Limit, Spelling};

// The field that starts at a place, read in one pass over its bytes.
#[tactic(auto, using(crate::proofs::Reading::read_hex4, crate::proofs::Reading::read_hex16))]
pub fn read_at(text: &[u8], at: usize, limit: Limit) -> Result<Field, Fault>
    ensures { result ≡ read_at text.now at limit.spelling limit.low limit.high }
{
    match limit.spelling {
        Spelling::Decimal => read_decimal(text, at, limit.low, limit.high),
        Spelling::Hex4 => read_hex(text, at, 4, limit),
        Spelling::Hex16 => read_hex(text, at, 16, limit),
        Spelling::Factor => read_factor(text, at, limit.low, limit.high),
    }
}

// Writing a number in its one spelling.
ghost use Rattle.std.specs.Prelude.{◌≡◌, length};
ghost use Rattle.fields.specs.Put.{put, put_end, written};

use crate::decimal::decimal_width;
use crate::digit::put_fixed;
use crate::factor::put_factor;
use crate::put::has_room;
use crate::spelling::Spelling;
use units::limits::FACTOR_DIGITS;

// How many bytes a number's spelling has; 0 above the spelling's limit.
#[tactic(auto, using(crate::proofs::Writing::width_none, crate::proofs::Writing::width_decimal, crate::proofs::Writing::width_hex4, crate::proofs::Writing::width_hex16, crate::proofs::Writing::width_factor))]
pub fn width(spelling: Spelling, n: u64) -> usize
    ensures { result ≡ length (written spelling n) }
{
    if spelling.limit() < n {
        return 0;
    }
    match spelling {
        Spelling::Decimal => decimal_width(n),
        Spelling::Hex4 => 4,
        Spelling::Hex16 => 16,
        Spelling::Factor => 2 + FACTOR_DIGITS,
    }
}

// Puts a number's spelling, where it has one and there is room for it; the answer is the place after it.
pub fn put_at(buf: &mut [u8], at: usize, spelling: Spelling, n: u64) -> usize
    ensures { (result ≡ put_end buf.old at (written spelling n)) × (buf.new ≡ put buf.old at (written spelling n)) }
{
    if spelling.limit() < n {
        return at;
    }
    let k = width(spelling, n);
    if !has_room(buf.len(), at, k) {
        return at;
    }
    match spelling {
        Spelling::Decimal => put_fixed::<10>(buf, at, k, n),
        Spelling::Hex4 => put_fixed::<16>(buf, at, k, n),
        Spelling::Hex16 => put_fixed::<16>(buf, at, 16, n),
        Spelling::Factor => put_factor(buf, at, n),
    }
}

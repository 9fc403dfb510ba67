// Whether floats, estimates and states are the same, bit for bit.
ghost use Rattle.std.specs.Prelude.{◌≡◌};
ghost use Rattle.floats.specs.Bits.{nought, same_float};
ghost use Rattle.floats.specs.Ranges.{blank, same_estimate, same_state};

use crate::bits::bits_of;
use units::Estimate;

// By bits: `==` of floats has -0 for +0, and no NaN for itself.
#[tactic(auto, using(crate::proofs::Limits::same_test))]
fn same_float(x: f64, y: f64) -> bool
    ensures { result ≡ same_float x y }
{
    bits_of(x) == bits_of(y)
}

// Whether x is +0.
pub(crate) fn is_nought(x: f64) -> bool
    ensures { result ≡ same_float x nought }
{
    same_float(x, 0.0)
}

fn same_estimate(a: Estimate, b: Estimate) -> bool
    ensures { result ≡ same_estimate a b }
{
    same_float(a.x, b.x) && same_float(a.variance, b.variance)
}

// Whether an estimate is +0 and +0.
#[tactic(auto, unfolding(crate::specs::Ranges::same_estimate))]
pub(crate) fn is_blank(e: Estimate) -> bool
    ensures { result ≡ same_estimate e blank }
{
    is_nought(e.x) && is_nought(e.variance)
}

pub fn same_state(a: [Estimate; 16], b: [Estimate; 16]) -> bool
    ensures { result ≡ same_state a b }
{
    a.iter().zip(&b).all(|(x, y)| same_estimate(*x, *y))
}

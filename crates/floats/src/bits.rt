// The bits of a float, and the float of bits.
ghost use Rattle.std.specs.Prelude.{◌≡◌};
ghost use Rattle.floats.specs.Bits.{bits_of, float_of};

// The bits of the limits of x, of the variance and of a target.
pub const X_BITS: u64 = 0x4130_c8e0_0000_0000;

pub const VARIANCE_BITS: u64 = 0x41cd_cd65_0000_0000;

pub const TARGET_BITS: u64 = 0x4170_c8e0_0000_0000;

// The bits of a float. Those of a NaN are past every limit, as those with the sign set are.
#[tactic(auto, using(crate::proofs::Limits::nan_bits_lem), unfolding(crate::specs::Bits::bits_of))]
pub fn bits_of(x: f64) -> u64
    ensures { result ≡ bits_of x }
{
    if x.is_nan() {
        0x7ff8_0000_0000_0000
    } else {
        x.to_bits()
    }
}

// The float of bits up to those of infinity, and +0 for any other.
#[tactic(auto, using(crate::proofs::Limits::no_nan_bits, crate::proofs::Limits::float_low, crate::proofs::Limits::float_high))]
pub fn float_of(bits: u64) -> f64
    ensures { result ≡ float_of bits }
{
    if bits <= 0x7ff0_0000_0000_0000 {
        f64::from_bits(bits)
    } else {
        0.0
    }
}

// Whole products as floats, and floats held within a limit.
ghost use Rattle.std.specs.Prelude.{◌≡◌, ◌*◌};
ghost use Rattle.floats.specs.Bits.{of_whole};
ghost use Rattle.filter.specs.Run.{at_most, limited};

// a × b as a float.
pub(crate) fn product(a: u32, b: u32) -> f64
    ensures { result ≡ of_whole (a * b) }
{
    std::num::nearest_u64_to_f64(u64::from(a) * u64::from(b))
}

// v, or the limit where v exceeds it. Not `min`, which answers a NaN otherwise than `at_most` does.
#[tactic(auto, unfolding(crate::specs::Run::at_most))]
pub(crate) fn at_most(top: f64, v: f64) -> f64
    ensures { result ≡ at_most top v }
{
    if top < v { top } else { v }
}

// v held within +0 and the limit. Not `clamp`, which answers a NaN and -0 otherwise than `limited` does.
#[tactic(auto, unfolding(crate::specs::Run::limited))]
pub(crate) fn limit(top: f64, v: f64) -> f64
    ensures { result ≡ limited top v }
{
    if 0.0 < v && v <= top {
        v
    } else if top < v {
        top
    } else {
        0.0
    }
}

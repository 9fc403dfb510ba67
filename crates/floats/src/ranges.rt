// Whether floats are in their ranges, +0 and the limit with them; places that are no run hold +0.
ghost use Rattle.std.specs.Prelude.{◌≡◌};
ghost use Rattle.floats.specs.Ranges.{estimate_fits, estimate_place, state_fits, target_place, targets_fit};

use crate::bits::{TARGET_BITS, VARIANCE_BITS, X_BITS, bits_of};
use crate::same::{is_blank, is_nought};
use units::Estimate;

// `&`: with `&&` the proof by limits did not close.
#[tactic(auto, using(crate::proofs::Limits::x_limit, crate::proofs::Limits::variance_limit, crate::proofs::Limits::found_test), unfolding(crate::specs::Ranges::estimate_fits))]
fn estimate_in_range(e: Estimate) -> bool
    ensures { result ≡ estimate_fits e }
{
    (bits_of(e.x) <= X_BITS) & (bits_of(e.variance) <= VARIANCE_BITS)
}

// Whether a place holds a run's estimate in range, or nothing where it is no run.
fn estimate_place(run: bool, e: Estimate) -> bool
    ensures { result ≡ estimate_place run e }
{
    if run {
        estimate_in_range(e)
    } else {
        is_blank(e)
    }
}

pub fn state_in_range(state: [Estimate; 16], m: usize) -> bool
    ensures { result ≡ state_fits m state }
{
    state
        .iter()
        .enumerate()
        .all(|(i, e)| estimate_place(i < m, *e))
}

// Whether a place holds a run's target in range, or +0 where it is no run.
#[tactic(auto, using(crate::proofs::Limits::target_limit, crate::proofs::Limits::found_test))]
fn target_place(run: bool, target: f64) -> bool
    ensures { result ≡ target_place run target }
{
    if run {
        bits_of(target) <= TARGET_BITS
    } else {
        is_nought(target)
    }
}

pub fn targets_in_range(targets: [f64; 16], m: usize) -> bool
    ensures { result ≡ targets_fit m targets }
{
    targets
        .iter()
        .enumerate()
        .all(|(i, target)| target_place(i < m, *target))
}

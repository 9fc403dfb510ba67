// The total and what each run is given of it.
ghost use Rattle.std.specs.Prelude.{◌≡◌, ◌≤◌};
ghost use Rattle.filter.specs.Share.{share, target, targets, total, weight_sum};

use crate::limit::at_most;
use units::{Estimate, Numbers};

// The sum of x over the first m runs, from run 0 upward.
pub(crate) fn total_of(m: usize, state: [Estimate; 16]) -> f64
    ensures { result ≡ total m state }
{
    state.iter().take(m).fold(0.0, |sum, e| sum + e.x)
}

// The sum of the weights of the first m runs.
fn weight_sum(m: usize, weights: [u32; 16]) -> u64
    ensures { result ≡ weight_sum m weights }
{
    weights.iter().take(m).map(|w| u64::from(*w)).sum()
}

// A run's target: two roundings, or the total where the quotient exceeds it.
#[tactic(auto, unfolding(crate::specs::Share::target))]
pub(crate) fn target_of(total: f64, weight: u32, sum: u64) -> f64
    ensures { result ≡ target total weight sum }
{
    at_most(
        total,
        total * f64::from(weight) / std::num::nearest_u64_to_f64(sum),
    )
}

// A run's target; +0 at a place that is no run.
fn share_of(used: bool, total: f64, weight: u32, sum: u64) -> f64
    ensures { result ≡ share used total weight sum }
{
    if used {
        target_of(total, weight, sum)
    } else {
        0.0
    }
}

// All sixteen targets.
pub(crate) fn targets_of(total: f64, numbers: Numbers) -> [f64; 16]
    ensures { result ≡ targets total numbers }
{
    let sum = weight_sum(numbers.group.m, numbers.weights);
    std::array::from_fn(|i| share_of(i < numbers.group.m, total, numbers.weights[i], sum))
}

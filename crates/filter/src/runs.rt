// All sixteen places of a state after a round.
ghost use Rattle.std.specs.Prelude.{◌≡◌};
ghost use Rattle.filter.specs.Runs.{place, runs_after};

use crate::run::{estimate_after, run};
use units::mask::has;
use units::{Estimate, Numbers};

// A run's place after a round; a place that is no run stays.
#[tactic(auto, unfolding(crate::specs::Runs::place))]
fn place_after(
    used: bool,
    e: Estimate,
    n: u32,
    q: u32,
    r: u32,
    chosen: bool,
    raw: u32,
    factor: u32,
) -> Estimate
    ensures { result ≡ place used e n q r chosen raw factor }
{
    if used {
        estimate_after(e, run(e, n, q, r, chosen, raw, factor))
    } else {
        e
    }
}

pub(crate) fn runs_after(
    state: [Estimate; 16],
    n: u32,
    numbers: Numbers,
    chosen: u32,
    readings: [u32; 16],
) -> [Estimate; 16]
    ensures { result ≡ runs_after state n numbers chosen readings }
{
    std::array::from_fn(|i| {
        place_after(
            i < numbers.group.m,
            state[i],
            n,
            numbers.q,
            numbers.r,
            has(chosen, i),
            readings[i],
            numbers.factors[i],
        )
    })
}

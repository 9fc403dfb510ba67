// One run: its variance grown, its reading measured, its estimate moved.
ghost use Rattle.std.specs.Prelude.{◌≡◌};
ghost use Rattle.filter.specs.Run.{grown, measured, gain, moved, shrunk, outcome, estimate_after};

use crate::limit::{at_most, limit, product};
use units::Estimate;
use units::limits::{FACTOR_SCALE, VARIANCE_TOP, X_TOP};

// What a round makes of a run: updated by its reading, or only predicted.
#[derive(Clone, Copy)]
pub enum Outcome {
    Updated { x: f64, variance: f64 },
    Predicted { variance: f64 },
}

// P1, from P, n and q.
pub(crate) fn grow(p: f64, n: u32, q: u32) -> f64
    ensures { result ≡ grown p n q }
{
    at_most(VARIANCE_TOP, p + product(n, q))
}

// z, from a raw reading and its meter's factor.
#[tactic(auto, unfolding(crate::specs::Run::measured))]
pub(crate) fn measure(raw: u32, factor: u32) -> f64
    ensures { result ≡ measured raw factor }
{
    product(raw, factor) / f64::from(FACTOR_SCALE)
}

// k, from P1 and r.
#[tactic(auto, unfolding(crate::specs::Run::gain))]
pub(crate) fn gain_of(p1: f64, r: u32) -> f64
    ensures { result ≡ gain p1 r }
{
    p1 / (p1 + f64::from(r))
}

// The new x, from x, k and z.
pub(crate) fn move_by(x: f64, k: f64, z: f64) -> f64
    ensures { result ≡ moved x k z }
{
    limit(X_TOP, x + k * (z - x))
}

// The new P, from k and P1.
#[tactic(auto, using(floats::proofs::Limits::variance_top_lem, crate::proofs::Cases::one_is), unfolding(crate::specs::Run::shrunk))]
pub(crate) fn shrink(k: f64, p1: f64) -> f64
    ensures { result ≡ shrunk k p1 }
{
    limit(VARIANCE_TOP, (1.0 - k) * p1)
}

// One run, n rounds after its state.
pub(crate) fn run(
    e: Estimate,
    n: u32,
    q: u32,
    r: u32,
    chosen: bool,
    raw: u32,
    factor: u32,
) -> Outcome
    ensures { result ≡ outcome e n q r chosen raw factor }
{
    let p1 = grow(e.variance, n, q);
    if chosen {
        let z = measure(raw, factor);
        let k = gain_of(p1, r);
        Outcome::Updated {
            x: move_by(e.x, k, z),
            variance: shrink(k, p1),
        }
    } else {
        Outcome::Predicted {
            variance: limit(VARIANCE_TOP, p1),
        }
    }
}

// What an outcome leaves of a run.
pub(crate) fn estimate_after(e: Estimate, o: Outcome) -> Estimate
    ensures { result ≡ estimate_after e o }
{
    match o {
        Outcome::Updated { x, variance } => Estimate { x, variance },
        Outcome::Predicted { variance } => Estimate { x: e.x, variance },
    }
}

// Computing on values that may be out of range: those get 6, and change nothing.
ghost use Rattle.std.specs.Prelude.{◌≡◌};
ghost use Rattle.filter.specs.Checked.{checked, computing_fits, readings_fit};

use crate::compute::{Computed, Round, compute};
use floats::ranges::state_in_range;
use units::Refusal;
use units::mask::mask_in_range;
use units::reading::reading_place;

pub(crate) fn readings_in_range(m: usize, readings: [u32; 16]) -> bool
    ensures { result ≡ readings_fit m readings }
{
    readings
        .iter()
        .enumerate()
        .all(|(i, raw)| reading_place(i < m, *raw))
}

#[tactic(auto, unfolding(crate::specs::Checked::computing_fits))]
fn computing_in_range(round: Round) -> bool
    ensures { result ≡ computing_fits round.label round.base round.state round.numbers round.chosen round.readings }
{
    let m = round.numbers.group.m;
    let station = round.numbers.in_range() && state_in_range(round.state, m);
    station
        && (round.base.before(round.label)
            && mask_in_range(m, round.chosen)
            && readings_in_range(m, round.readings))
}

// Why nothing was computed, and what stands then: the state as it was, and every target +0.
#[derive(Clone, Copy)]
pub struct Uncomputed {
    pub why: Refusal,
    pub left: Computed,
}

#[tactic(auto, unfolding(crate::specs::Checked::checked, units::specs::Pick::pick))]
pub fn compute_checked(round: Round) -> Result<Computed, Uncomputed>
    ensures { result ≡ checked round.label round.base round.state round.numbers round.chosen round.readings }
{
    if computing_in_range(round) {
        Ok(compute(round))
    } else {
        let state = round.state;
        let targets = [0.0; 16];
        Err(Uncomputed {
            why: Refusal::Range,
            left: Computed { state, targets },
        })
    }
}

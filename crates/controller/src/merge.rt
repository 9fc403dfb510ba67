// Readings put together: whether two sets agree, one set added to another, and the part of a set that is asked for.
ghost use Rattle.std.specs.Prelude.{◌≡◌};
ghost use Rattle.controller.specs.Merge.{agree_place, agrees, merged, merged_at, run_bit, selected};

use crate::state::Controller;
use units::mask::has;

// The mask of one run, of none at sixteen or above.
#[tactic(auto, using(units::proofs::Masks::shifted, units::proofs::Masks::mask_end_is), unfolding(crate::specs::Merge::run_bit, units::specs::Pick::pick))]
pub(crate) fn run_bit(run: usize) -> u32
    ensures { result ≡ run_bit run }
{
    if run < Controller::RUNS { 1 << run } else { 0 }
}

// A place agrees where one of the two sets has no reading, or both have the same.
fn place_agrees(here: bool, a: u32, b: u32) -> bool
    ensures { result ≡ agree_place here a b }
{
    !here || a == b
}

// Whether two sets of readings agree on every run that is in both masks.
pub(crate) fn readings_agree(shared: u32, a: [u32; 16], b: [u32; 16]) -> bool
    ensures { result ≡ agrees shared a b }
{
    (0..Controller::RUNS).all(|i| place_agrees(has(shared, i), a[i], b[i]))
}

fn place_merged(here: bool, new: u32, old: u32) -> u32
    ensures { result ≡ merged_at here new old }
{
    if here { new } else { old }
}

// The readings of the mask from the new set, the others from the old one.
pub(crate) fn merge_readings(mask: u32, new: [u32; 16], old: [u32; 16]) -> [u32; 16]
    ensures { result ≡ merged mask new old }
{
    std::array::from_fn(|i| place_merged(has(mask, i), new[i], old[i]))
}

// The readings of the mask, and 0 for the others.
pub(crate) fn select_readings(mask: u32, readings: [u32; 16]) -> [u32; 16]
    ensures { result ≡ selected mask readings }
{
    merge_readings(mask, readings, [0; 16])
}

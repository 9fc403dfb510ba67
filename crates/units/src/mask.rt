// Masks of runs: bit i for run i.
ghost use Rattle.std.specs.Prelude.{◌≡◌};
ghost use Rattle.units.specs.Mask.{in_mask, mask_end, mask_fits};

use crate::limits::RUNS;

// One more than the largest mask of m runs.
pub fn mask_end(m: usize) -> u32
    ensures { result ≡ mask_end m }
{
    1u32 << m.min(RUNS)
}

// Whether run i is in the mask.
#[tactic(auto, using(crate::proofs::Masks::no_bit))]
pub fn has(mask: u32, i: usize) -> bool
    ensures { result ≡ in_mask mask i }
{
    i < 32 && (mask >> i) % 2 == 1
}

// Whether the mask has a bit, and none at m or above.
pub fn mask_in_range(m: usize, mask: u32) -> bool
    ensures { result ≡ mask_fits m mask }
{
    (1..mask_end(m)).contains(&mask)
}

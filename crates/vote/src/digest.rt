// Digests of one label: which are legal, when two are the same, and their order.
ghost use Rattle.std.specs.Prelude.{◌≤◌, ◌≡◌};
ghost use Rattle.std.specs.Int.Count.{ones};
ghost use Rattle.vote.specs.Digest.{full, least, legal, rank, same, unrank};

use units::limits::RUNS;
use units::mask::{mask_end, mask_in_range};
use units::{RoundLabel, StateLabel};

// What a controller votes: the runs whose readings it holds, and the state that it holds.
#[derive(Clone, Copy, PartialEq, Eq)]
pub struct Digest {
    pub mask: u32,
    pub state: StateLabel,
}

// The number of measurements in a mask.
fn size_of(mask: u32) -> u64
    ensures { (result ≡ ones mask) × (result ≤ 32) }
{
    u64::from(mask.count_ones())
}

impl Digest {
    // Whether a controller may vote it in the round (m, label).
    #[tactic(auto, unfolding(crate::specs::Digest::legal))]
    pub fn legal(self, m: usize, label: RoundLabel) -> bool
        ensures { result ≡ legal m label self }
    {
        m <= RUNS && mask_in_range(m, self.mask) && self.state.before(label)
    }

    #[tactic(auto, unfolding(crate::specs::Digest::same))]
    pub fn same(self, other: Digest) -> bool
        ensures { result ≡ same self other }
    {
        self == other
    }

    // Its place in the order of digests, as one number.
    #[tactic(auto, unfolding(crate::specs::Digest::rank))]
    pub(crate) fn rank(self) -> u64
        ensures { result ≡ rank self }
    {
        let state = u64::from(self.state.0);
        let held = size_of(self.mask);
        let mask = u64::from(self.mask);
        state * 2097152 + held * 65536 + mask
    }

    // The legal digest of a rank.
    #[tactic(auto, unfolding(crate::specs::Digest::unrank))]
    pub(crate) fn unrank(n: u64) -> Digest
        ensures { result ≡ unrank n }
    {
        Digest {
            mask: (n % 65536) as u32,
            state: StateLabel((n / 2097152 % 4294967296) as u32),
        }
    }

    // All m runs and the state just before the label.
    #[tactic(auto, unfolding(crate::specs::Digest::full))]
    pub(crate) fn full(m: usize, label: RoundLabel) -> Digest
        ensures { result ≡ full m label }
    {
        Digest {
            mask: mask_end(m) - 1,
            state: label.previous(),
        }
    }

    // Run 0 alone and the state of a start.
    #[tactic(auto, unfolding(crate::specs::Digest::least))]
    pub(crate) fn least() -> Digest
        ensures { result ≡ least }
    {
        Digest {
            mask: 1,
            state: StateLabel(0),
        }
    }
}

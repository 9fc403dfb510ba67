// The two kinds of label, each with its own comparisons, and the only functions in which they meet.
ghost use Rattle.std.specs.Prelude.{◌≡◌, eqb, ltb};
ghost use Rattle.units.specs.Labels.{before, correction, floor_fits, issued_state, just_before, round_fits, state_label_fits};

use crate::limits::{LABEL_TOP, ROUND_LOW};

// The label of a round.
#[derive(Clone, Copy, PartialEq, Eq, PartialOrd, Ord)]
pub struct RoundLabel(pub u32);

// The label of a state: that of the round that left it, 0 at a start.
#[derive(Clone, Copy, PartialEq, Eq, PartialOrd, Ord)]
pub struct StateLabel(pub u32);

// Each kind of label has its own comparisons, as document 01 has it, and no generic one serves both.
impl RoundLabel {
    pub fn in_range(self) -> bool
        ensures { result ≡ round_fits self }
    {
        (ROUND_LOW..=LABEL_TOP).contains(&self.0)
    }

    // Whether it can be a floor, which may be 0.
    pub fn floor_in_range(self) -> bool
        ensures { result ≡ floor_fits self }
    {
        self.0 <= LABEL_TOP
    }

    pub fn below(self, other: RoundLabel) -> bool
        ensures { result ≡ ltb self.0 other.0 }
    {
        self < other
    }

    pub fn same(self, other: RoundLabel) -> bool
        ensures { result ≡ eqb self.0 other.0 }
    {
        self == other
    }

    // n, by how many rounds the state lies back; 0 where it does not lie before the round.
    pub fn since(self, state: StateLabel) -> u32
        ensures { result ≡ correction self state }
    {
        self.0.saturating_sub(state.0)
    }

    // The label of the state that this round leaves once it is issued.
    pub fn issued(self) -> StateLabel
        ensures { result ≡ issued_state self }
    {
        StateLabel(self.0)
    }

    // The label of the state just before this round.
    pub fn previous(self) -> StateLabel
        ensures { result ≡ just_before self }
    {
        StateLabel(self.0.saturating_sub(1))
    }
}

impl StateLabel {
    pub fn in_range(self) -> bool
        ensures { result ≡ state_label_fits self }
    {
        self.0 <= LABEL_TOP
    }

    pub fn below(self, other: StateLabel) -> bool
        ensures { result ≡ ltb self.0 other.0 }
    {
        self < other
    }

    pub fn same(self, other: StateLabel) -> bool
        ensures { result ≡ eqb self.0 other.0 }
    {
        self == other
    }

    // Whether the state lies before the round.
    pub fn before(self, round: RoundLabel) -> bool
        ensures { result ≡ before self round }
    {
        self.0 < round.0
    }
}

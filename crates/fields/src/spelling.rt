// How a field is spelled, and which numbers it can have.
ghost use Rattle.std.specs.Prelude.{◌≡◌};
ghost use Rattle.fields.specs.Field.{fits, limit};

use units::limits::{FACTOR_SCALE, LABEL_TOP};

#[derive(Clone, Copy)]
pub enum Spelling {
    Decimal,
    Hex4,
    Hex16,
    Factor,
}

impl Spelling {
    // The largest number that a field of this spelling can have.
    pub(crate) fn limit(self) -> u64
        ensures { result ≡ limit self }
    {
        match self {
            Spelling::Decimal => LABEL_TOP.into(),
            Spelling::Hex4 => 0xffff,
            Spelling::Hex16 => u64::MAX,
            Spelling::Factor => 10 * u64::from(FACTOR_SCALE) - 1,
        }
    }
}

// A field's spelling, and the range of its number, both ends among it. What reads one spelling alone takes low and high: a Limit would bring a spelling of its own.
#[derive(Clone, Copy)]
pub struct Limit {
    pub spelling: Spelling,
    pub low: u64,
    pub high: u64,
}

impl Limit {
    // Whether n is one of low..high, and no more than the spelling's limit.
    #[tactic(auto, unfolding(crate::specs::Field::fits))]
    pub(crate) fn holds(self, n: u64) -> bool
        ensures { result ≡ fits self.spelling self.low self.high n }
    {
        self.low <= n && n <= self.high && n <= self.spelling.limit()
    }
}

// What a field says, form first, then range.
ghost use Rattle.std.specs.Prelude.{◌≡◌};
ghost use Rattle.fields.specs.Field.{judge, refusal_of};

use crate::spelling::Limit;
use units::Refusal;

// The number of a field that is read, and where the next field starts.
#[derive(Clone, Copy)]
pub struct Field {
    pub n: u64,
    pub next: usize,
}

// Why a field is refused.
#[derive(Clone, Copy, Debug, PartialEq, Eq)]
pub enum Fault {
    Form,
    Range,
}

impl From<Fault> for Refusal {
    ghost from_gives = { λ fault refusal. refusal ≡ refusal_of fault };

    fn from(fault: Fault) -> Refusal {
        match fault {
            Fault::Form => Refusal::Form,
            Fault::Range => Refusal::Range,
        }
    }
}

// The number of a field that has its form.
#[tactic(auto, unfolding(crate::specs::Field::judge, crate::specs::Digits::pick))]
pub(crate) fn judged(limit: Limit, n: u64, next: usize) -> Result<Field, Fault>
    ensures { result ≡ judge limit.spelling limit.low limit.high next (Some n) }
{
    if limit.holds(n) {
        return Ok(Field { n, next });
    }
    Err(Fault::Range)
}

// Why something was refused, and the number for it: 1 to 16 by document 01, 17 to 19 by request 1 for an export of the store.
ghost use Rattle.std.specs.Prelude.{◌≡◌};
ghost use Rattle.units.specs.Refusal.{answer_number, is_number, number_of};

use crate::limits::{NUMBER_LOW, NUMBER_TOP};

#[derive(Clone, Copy, PartialEq, Eq)]
pub enum Refusal {
    Long,
    Unended,
    Kind,
    Fields,
    Form,
    Range,
    Own,
    Late,
    Closed,
    Other,
    Clash,
    Undecided,
    Lacking,
    Behind,
    // The reason by its number, which 15 carries: a refusal within a refusal would want a heap.
    Settings { line: u32, reason: u32 },
    Room,
    SameDay,
    NoneInForce,
    Full,
}

impl Refusal {
    // No From: by definition `number_of`, whose table is document 01's.
    pub fn number(self) -> u32
        ensures { result ≡ number_of self }
    {
        match self {
            Refusal::Long => 1,
            Refusal::Unended => 2,
            Refusal::Kind => 3,
            Refusal::Fields => 4,
            Refusal::Form => 5,
            Refusal::Range => 6,
            Refusal::Own => 7,
            Refusal::Late => 8,
            Refusal::Closed => 9,
            Refusal::Other => 10,
            Refusal::Clash => 11,
            Refusal::Undecided => 12,
            Refusal::Lacking => 13,
            Refusal::Behind => 14,
            Refusal::Settings { .. } => 15,
            Refusal::Room => 16,
            Refusal::SameDay => 17,
            Refusal::NoneInForce => 18,
            Refusal::Full => 19,
        }
    }
}

// Whether n is a refusal's number of document 01's table, as X may carry it.
pub fn is_number(n: u32) -> bool
    ensures { result ≡ is_number n }
{
    (NUMBER_LOW..=NUMBER_TOP).contains(&n)
}

// What an act says of itself: taken, or refused.
pub type Verdict = Result<(), Refusal>;

// The number of an answer, 0 where nothing is refused.
pub fn answer_number<T: Copy>(answer: Result<T, Refusal>) -> u32
    ensures { result ≡ answer_number answer }
{
    match answer {
        Ok(_) => 0,
        Err(why) => why.number(),
    }
}

// The table of the lines: what stands at each place of each kind, and how it is spelled and judged.
ghost use Rattle.std.specs.Prelude.{◌≡◌, ◌-◌, ◌≤◌, ◌%◌};
ghost use Rattle.std.specs.Int.Count.{ones};
ghost use Rattle.lines.specs.Table.{alternate, count_of, limit_for, limit_of, quantity_at, row, runs_of, spelling_of};

use crate::kind::Kind;
pub use fields::Limit;
use fields::Spelling;
use floats::bits::{TARGET_BITS, VARIANCE_BITS, X_BITS};
use units::Group;
use units::limits::{
    CONTROLLERS, FACTOR_LOW, FACTOR_TOP, FIRST_LOW, FIRST_TOP, LABEL_TOP, NOISE_LOW, NOISE_TOP,
    NUMBER_LOW, NUMBER_TOP, RAW_TOP, ROUND_LOW, RUNS, WEIGHT_LOW, WEIGHT_TOP,
};
use units::mask::mask_end;

// What can stand at a place of a line, but for a certificate.
#[derive(Clone, Copy)]
pub enum Quantity {
    Sender,
    RunNumber,
    Round,
    State,
    Base,
    Mask,
    Raw,
    X,
    Variance,
    Target,
    Number,
    Controllers,
    Runs,
    Noise,
    First,
    Turn,
    Factor,
    Weight,
}

// What stands at a place of a row of four; the last stands at every later place too.
fn at_place(place: usize, a: Quantity, b: Quantity, c: Quantity, d: Quantity) -> Quantity
    ensures { result ≡ row place a b c d }
{
    match place {
        0 => a,
        1 => b,
        2 => c,
        _ => d,
    }
}

fn either(first: bool, a: Quantity, b: Quantity) -> Quantity
    ensures { result ≡ alternate first a b }
{
    if first { a } else { b }
}

// What stands at a place, from 0, of a line's numbers.
#[tactic(auto, unfolding(crate::specs::Table::quantity_at))]
pub(crate) fn quantity_at(kind: Kind, place: usize) -> Quantity
    ensures { result ≡ quantity_at kind place }
{
    match kind {
        Kind::Reading => at_place(
            place,
            Quantity::Round,
            Quantity::RunNumber,
            Quantity::Raw,
            Quantity::Raw,
        ),
        Kind::Query => at_place(
            place,
            Quantity::Sender,
            Quantity::Round,
            Quantity::Mask,
            Quantity::Mask,
        ),
        Kind::Reply => at_place(
            place,
            Quantity::Sender,
            Quantity::Round,
            Quantity::Mask,
            Quantity::Raw,
        ),
        Kind::Advert => at_place(
            place,
            Quantity::Sender,
            Quantity::State,
            Quantity::State,
            Quantity::State,
        ),
        Kind::Update => {
            let float = either(place % 2 == 0, Quantity::X, Quantity::Variance);
            at_place(place, Quantity::Sender, Quantity::State, float, float)
        }
        Kind::Vote => at_place(
            place,
            Quantity::Sender,
            Quantity::Round,
            Quantity::Base,
            Quantity::Mask,
        ),
        Kind::Setpoints => {
            let last = either(place == 3, Quantity::Mask, Quantity::Target);
            at_place(
                place,
                Quantity::Sender,
                Quantity::Round,
                Quantity::Base,
                last,
            )
        }
        Kind::Due | Kind::CollectingEnds | Kind::VotingEnds | Kind::Floor => Quantity::Round,
        Kind::Start => at_place(
            place,
            Quantity::Sender,
            Quantity::State,
            Quantity::State,
            Quantity::State,
        ),
        Kind::Refused => Quantity::Number,
        Kind::Sizes => at_place(
            place,
            Quantity::Controllers,
            Quantity::Runs,
            Quantity::Runs,
            Quantity::Runs,
        ),
        Kind::Filter => at_place(
            place,
            Quantity::Noise,
            Quantity::Noise,
            Quantity::First,
            Quantity::First,
        ),
        Kind::Run => at_place(
            place,
            Quantity::Turn,
            Quantity::Factor,
            Quantity::Weight,
            Quantity::Weight,
        ),
    }
}

impl Quantity {
    pub(crate) fn spelling(self) -> Spelling
        ensures { result ≡ spelling_of self }
    {
        match self {
            Quantity::Mask => Spelling::Hex4,
            Quantity::X => Spelling::Hex16,
            Quantity::Variance | Quantity::Target => Spelling::Hex16,
            Quantity::Factor => Spelling::Factor,
            Quantity::Sender
            | Quantity::RunNumber
            | Quantity::Round
            | Quantity::State
            | Quantity::Base
            | Quantity::Raw
            | Quantity::Number
            | Quantity::Controllers
            | Quantity::Runs
            | Quantity::Noise
            | Quantity::First
            | Quantity::Turn
            | Quantity::Weight => Spelling::Decimal,
        }
    }
}

// A function, since edit floats_as_decimal_text has its line.
fn made(spelling: Spelling, low: u64, high: u64) -> Limit
    ensures { result ≡ record { spelling = spelling; low = low; high = high } }
{
    Limit {
        spelling,
        low,
        high,
    }
}

impl Quantity {
    // `given` is the line's own label, of which a base state label lies below, or the run whose turn it is.
    pub(crate) fn bounds(self, group: Group, given: u64) -> Limit
        ensures { result ≡ limit_for self group given }
    {
        match self {
            Quantity::Sender => made(Spelling::Decimal, 0, (group.g as u64).saturating_sub(1)),
            Quantity::RunNumber => made(Spelling::Decimal, 0, (group.m as u64).saturating_sub(1)),
            Quantity::Round => made(Spelling::Decimal, ROUND_LOW.into(), LABEL_TOP.into()),
            Quantity::State => made(Spelling::Decimal, 0, LABEL_TOP.into()),
            Quantity::Base => made(Spelling::Decimal, 0, given.saturating_sub(1)),
            Quantity::Mask => made(
                Spelling::Hex4,
                1,
                u64::from(mask_end(group.m)).saturating_sub(1),
            ),
            Quantity::Raw => made(Spelling::Decimal, 0, RAW_TOP.into()),
            Quantity::X => made(Spelling::Hex16, 0, X_BITS),
            Quantity::Variance => made(Spelling::Hex16, 0, VARIANCE_BITS),
            Quantity::Target => made(Spelling::Hex16, 0, TARGET_BITS),
            Quantity::Number => made(Spelling::Decimal, NUMBER_LOW.into(), NUMBER_TOP.into()),
            Quantity::Controllers => made(Spelling::Decimal, 1, CONTROLLERS as u64),
            Quantity::Runs => made(Spelling::Decimal, 1, RUNS as u64),
            Quantity::Noise => made(Spelling::Decimal, NOISE_LOW.into(), NOISE_TOP.into()),
            Quantity::First => made(Spelling::Decimal, FIRST_LOW.into(), FIRST_TOP.into()),
            Quantity::Turn => made(Spelling::Decimal, given, given),
            Quantity::Factor => made(Spelling::Factor, FACTOR_LOW.into(), FACTOR_TOP.into()),
            Quantity::Weight => made(Spelling::Decimal, WEIGHT_LOW.into(), WEIGHT_TOP.into()),
        }
    }
}

// THE TABLE, asked one place at a time.
pub(crate) fn limit_of(kind: Kind, place: usize, group: Group, given: u64) -> Limit
    ensures { result ≡ limit_of kind place group given }
{
    quantity_at(kind, place).bounds(group, given)
}

// As many runs as a group has, sixteen at the most.
pub(crate) fn runs_of(m: usize) -> usize
    ensures { result ≡ runs_of m }
{
    m.min(RUNS)
}

// The set bits of a mask of sixteen.
fn bits_of_mask(mask: u64) -> usize
    ensures { (result ≡ ones (mask % 65536)) × (result ≤ 16) }
{
    (mask % 65536).count_ones() as usize
}

// How many numbers a line of a kind has; of R they are known once its mask is.
#[tactic(auto, unfolding(crate::specs::Table::count_of))]
pub(crate) fn count_of(kind: Kind, group: Group, mask: u64) -> usize
    ensures { (result ≡ count_of kind group mask) × (result ≤ 34) }
{
    match kind {
        Kind::Reading | Kind::Query | Kind::Filter | Kind::Run => 3,
        Kind::Reply => 3 + bits_of_mask(mask),
        Kind::Advert | Kind::Start | Kind::Sizes => 2,
        Kind::Update => 2 + 2 * runs_of(group.m),
        Kind::Vote => 4,
        Kind::Setpoints => 4 + runs_of(group.m),
        Kind::Due | Kind::CollectingEnds | Kind::VotingEnds | Kind::Floor | Kind::Refused => 1,
    }
}

// The votes as seven ranks, 0 for a missing one: how often each stands there, and which is strongest.
ghost use Rattle.std.specs.Prelude.{◌≤◌, max, eqb, ◌≡◌};
ghost use Rattle.vote.specs.Decision.{largest, others_than, other_than, ranks_of, strength_of, strengths, tally_of};
ghost use Rattle.vote.specs.Vote.{bit};

use crate::votes::Seat;
use units::limits::CONTROLLERS;

// What one vote more adds to a strength: ranks lie below it.
pub const SEAT: u64 = 72057594037927936;

// 0 for a missing vote, and no Option: definitions `rank_of`, `strength_of` and `held_off` say so, and as the least number it needs no case of its own.
pub(crate) fn ranks_of(seats: [Seat; 7]) -> [u64; 7]
    ensures { result ≡ ranks_of seats }
{
    seats.map(|seat| seat.rank())
}

// How often x stands among the ranks.
pub(crate) fn tally(ranks: [u64; 7], x: u64) -> u64
    ensures { (result ≡ tally_of x ranks) × (result ≤ 7) }
{
    ranks.iter().filter(|y| **y == x).count() as u64
}

// How often a vote stands there and, below that, its rank; 0 for a missing one.
#[tactic(auto, unfolding(crate::specs::Decision::strength_of, units::specs::Pick::pick))]
pub(crate) fn strength(ranks: [u64; 7], x: u64) -> u64
    ensures { result ≡ strength_of ranks x }
{
    if x == 0 {
        return 0;
    }
    tally(ranks, x) * SEAT + x % SEAT
}

pub(crate) fn strengths_of(ranks: [u64; 7]) -> [u64; 7]
    ensures { result ≡ strengths ranks }
{
    ranks.map(|x| strength(ranks, x))
}

// The largest of seven numbers.
pub(crate) fn largest_of(found: [u64; 7]) -> u64
    ensures { result ≡ largest found }
{
    found.iter().fold(0, |most, x| most.max(*x))
}

// A strength, or 0 where it is that of the rank x.
fn other_than(x: u64, strength: u64) -> u64
    ensures { result ≡ other_than x strength }
{
    if strength % SEAT == x { 0 } else { strength }
}

// The largest strength of a vote that is not x.
pub(crate) fn largest_other(found: [u64; 7], x: u64) -> u64
    ensures { result ≡ largest (others_than x found) }
{
    largest_of(found.map(|strength| other_than(x, strength)))
}

// The winner of a set of votes, and what the set is decided for.
ghost use Rattle.std.specs.Prelude.{◌≤◌, ◌≡◌};
ghost use Rattle.vote.specs.Decision.{decision, held_off, missing_of, outsider, rival_of, ruled, winning};

use crate::digest::Digest;
use crate::ranks::{SEAT, largest_of, largest_other, ranks_of, strengths_of, tally};
use crate::votes::Votes;
use units::{Group, Refusal, RoundLabel};

// What a set of votes is decided for, if anything.
// `Decision` and `Poll` are one type under the two names that the definitions and pages have.
pub type Decision = Result<Option<Digest>, Refusal>;

// The winner among the votes that are there, if any.
pub type Poll = Result<Option<Digest>, Refusal>;

// Where nobody voted another than x, the rank that a rival is tried by: that of full; of least where x is full; 0 where x is both.
#[tactic(auto, unfolding(crate::specs::Decision::outsider, units::specs::Pick::pick))]
fn outsider_of(group: Group, label: RoundLabel, x: u64) -> u64
    ensures { result ≡ outsider group.m label x }
{
    let top = Digest::full(group.m, label).rank();
    if top != x {
        return top;
    }
    let low = Digest::least().rank();
    if low != x { low } else { 0 }
}

// How many of g votes are missing.
#[tactic(auto, unfolding(crate::specs::Decision::missing_of))]
fn missing_of(g: usize, ranks: [u64; 7]) -> u64
    requires { g ≤ 7 }
    ensures { (result ≡ missing_of g ranks) × (result ≤ 7) }
{
    let cast = 7 - tally(ranks, 0);
    (g as u64).saturating_sub(cast)
}

// The strongest vote other than x or, where there is none, the outsider.
#[tactic(auto, unfolding(crate::specs::Decision::rival_of, units::specs::Pick::pick))]
fn rival_of(group: Group, label: RoundLabel, found: [u64; 7], x: u64) -> u64
    ensures { result ≡ rival_of group.m label found x }
{
    match largest_other(found, x) {
        0 => outsider_of(group, label, x),
        voted => voted,
    }
}

// Whether the rival, given k votes more, stays behind.
#[tactic(auto, unfolding(crate::specs::Decision::held_off, units::specs::Pick::pick))]
fn held_off(rival: u64, k: u64, best: u64) -> bool
    requires { k ≤ 7 }
    ensures { result ≡ held_off rival k best }
{
    rival == 0 || k * SEAT < best.saturating_sub(rival)
}

// Only the strongest vote can be decided: it is where no rival catches up with all the missing votes.
#[tactic(auto, unfolding(crate::specs::Decision::ruled, crate::specs::Decision::ruled_at, units::specs::Pick::pick))]
fn rule(group: Group, label: RoundLabel, ranks: [u64; 7]) -> Decision
    requires { group.g ≤ 7 }
    ensures { result ≡ ruled group label ranks }
{
    let found = strengths_of(ranks);
    let best = largest_of(found);
    if best == 0 {
        return Ok(None);
    }
    let first = best % SEAT;
    let rival = rival_of(group, label, found, first);
    let missing = missing_of(group.g, ranks);
    if held_off(rival, missing, best) {
        Ok(Some(Digest::unrank(first)))
    } else {
        Ok(None)
    }
}

// What every completion of the votes has as its winner.
#[tactic(auto, unfolding(crate::specs::Decision::decision, units::specs::Pick::pick))]
pub fn decide(v: Votes) -> Decision
    ensures { result ≡ decision v }
{
    if v.in_range() {
        rule(v.group, v.label, ranks_of(v.seats))
    } else {
        Err(Refusal::Range)
    }
}

// The most common vote, the largest on a tie.
#[tactic(auto, unfolding(crate::specs::Decision::winning, crate::specs::Decision::strongest_at, units::specs::Pick::pick))]
pub fn winner(v: Votes) -> Poll
    ensures { result ≡ winning v }
{
    if !v.in_range() {
        return Err(Refusal::Range);
    }
    match largest_of(strengths_of(ranks_of(v.seats))) {
        0 => Ok(None),
        best => Ok(Some(Digest::unrank(best % SEAT))),
    }
}

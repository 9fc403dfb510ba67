// The votes of one round, handed in as a value.
ghost use Rattle.std.specs.Prelude.{◌≡◌};
ghost use Rattle.vote.specs.Vote.{rank_of, seated, seat_fits, seats_fit, votes_fit};

use crate::digest::Digest;
use units::limits::CONTROLLERS;
use units::{Group, RoundLabel};

// A vote, or none yet.
pub type Ballot = Option<Digest>;

// A controller's place in the vote: a struct around its ballot, since an Option can be given no methods here.
#[derive(Clone, Copy)]
pub struct Seat {
    pub ballot: Ballot,
}

// The votes of the round `label` in a group of g controllers and m runs: seats 0..g-1 count.
#[derive(Clone, Copy)]
pub struct Votes {
    pub group: Group,
    pub label: RoundLabel,
    pub seats: [Seat; 7],
}

impl Seat {
    // Whether a seat of the group holds a legal vote or none, and any other seat none.
    #[tactic(auto, unfolding(crate::specs::Vote::seat_fits))]
    fn in_range(self, inside: bool, m: usize, label: RoundLabel) -> bool
        ensures { result ≡ seat_fits inside m label self.ballot }
    {
        match self.ballot {
            None => true,
            Some(d) => inside && d.legal(m, label),
        }
    }

    // The rank of its vote, 0 where it has none.
    pub(crate) fn rank(self) -> u64
        ensures { result ≡ rank_of self.ballot }
    {
        match self.ballot {
            None => 0,
            Some(d) => d.rank(),
        }
    }
}

// One vote put in its seat; past the last seat nothing.
pub fn put_vote(votes: [Seat; 7], seat: usize, digest: Digest) -> [Seat; 7]
    ensures { result ≡ seated votes seat digest }
{
    let mut next = votes;
    if seat < CONTROLLERS {
        next[seat] = Seat {
            ballot: Some(digest),
        };
    }
    next
}

// Whether each of seven seats is in range.
pub fn seats_in_range(seats: [Seat; 7], group: Group, label: RoundLabel) -> bool
    ensures { result ≡ seats_fit group label seats }
{
    seats
        .iter()
        .enumerate()
        .all(|(i, seat)| seat.in_range(i < group.g, group.m, label))
}

impl Votes {
    #[tactic(auto, unfolding(crate::specs::Vote::votes_fit))]
    pub fn in_range(self) -> bool
        ensures { result ≡ votes_fit self }
    {
        self.group.in_range()
            && self.label.in_range()
            && seats_in_range(self.seats, self.group, self.label)
    }
}

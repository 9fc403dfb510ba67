// The vote: digests and their order, the winner, and what every completion of a set of votes has as its winner.
#![tactic(auto)]

pub mod digest;
pub mod judge;
pub mod ranks;
pub mod votes;

pub use digest::Digest;
pub use judge::{Decision, Poll, decide, winner};
pub use votes::{Ballot, Seat, Votes, put_vote};

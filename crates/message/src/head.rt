// What a message is, but for the arrays that some kinds carry.
ghost use Rattle.std.specs.Prelude.{◌≡◌};
ghost use Rattle.message.specs.Head.{carried, head_fits, is_plain};

use units::limits::RAW_TOP;
use units::mask::mask_in_range;
use units::{Group, RoundLabel, StateLabel, is_number};
use vote::Digest;

// The kinds of line, in the order of document 01: M Q R A U D S C E V F B X.
#[derive(Clone, Copy)]
pub enum Head {
    Reading {
        label: RoundLabel,
        run: usize,
        raw: u32,
    },
    Query {
        sender: usize,
        label: RoundLabel,
        mask: u32,
    },
    Reply {
        sender: usize,
        label: RoundLabel,
        mask: u32,
    },
    Advert {
        sender: usize,
        state: StateLabel,
    },
    Update {
        sender: usize,
        state: StateLabel,
    },
    Vote {
        sender: usize,
        label: RoundLabel,
        digest: Digest,
    },
    Setpoints {
        sender: usize,
        label: RoundLabel,
        digest: Digest,
    },
    Due {
        label: RoundLabel,
    },
    CollectingEnds {
        label: RoundLabel,
    },
    VotingEnds {
        label: RoundLabel,
    },
    Floor {
        label: RoundLabel,
    },
    Start {
        own: usize,
        floor: RoundLabel,
    },
    Refused {
        // as X carries it, in range or not: `head_fits` judges it
        number: u32,
    },
}

// The runs whose readings a message carries, as a mask, and how many runs' estimates and targets.
// 0 for none, by definition `carried`: what goes by it ranges up to the number.
#[derive(Clone, Copy)]
pub struct Carried {
    pub readings: u32,
    pub estimates: usize,
    pub targets: usize,
}

fn carry(readings: u32, estimates: usize, targets: usize) -> Carried
    ensures { result ≡ record { readings = readings; estimates = estimates; targets = targets } }
{
    Carried {
        readings,
        estimates,
        targets,
    }
}

#[tactic(auto, unfolding(crate::specs::Head::head_fits))]
fn reading_fits(group: Group, label: RoundLabel, run: usize, raw: u32) -> bool
    ensures { result ≡ head_fits group (Head.Reading label run raw) }
{
    label.in_range() && run < group.m && raw <= RAW_TOP
}

// Q and R.
#[tactic(auto, unfolding(crate::specs::Head::head_fits))]
fn mask_fits(group: Group, sender: usize, label: RoundLabel, mask: u32) -> bool
    ensures { result ≡ head_fits group (Head.Query sender label mask) }
{
    sender < group.g && label.in_range() && mask_in_range(group.m, mask)
}

// A and U.
#[tactic(auto, unfolding(crate::specs::Head::head_fits))]
fn state_fits(group: Group, sender: usize, state: StateLabel) -> bool
    ensures { result ≡ head_fits group (Head.Advert sender state) }
{
    sender < group.g && state.in_range()
}

// D and S.
#[tactic(auto, unfolding(crate::specs::Head::head_fits))]
fn digest_fits(group: Group, sender: usize, label: RoundLabel, digest: Digest) -> bool
    ensures { result ≡ head_fits group (Head.Vote sender label digest) }
{
    sender < group.g && label.in_range() && digest.legal(group.m, label)
}

impl Head {
    #[tactic(auto, unfolding(crate::specs::Head::head_fits))]
    pub fn in_range(self, group: Group) -> bool
        ensures { result ≡ head_fits group self }
    {
        match self {
            Head::Reading { label, run, raw } => reading_fits(group, label, run, raw),
            Head::Query {
                sender,
                label,
                mask,
            }
            | Head::Reply {
                sender,
                label,
                mask,
            } => { mask_fits(group, sender, label, mask) }
            Head::Advert { sender, state } | Head::Update { sender, state } => {
                state_fits(group, sender, state)
            }
            Head::Vote {
                sender,
                label,
                digest,
            }
            | Head::Setpoints {
                sender,
                label,
                digest,
            } => { digest_fits(group, sender, label, digest) }
            Head::Due { label }
            | Head::CollectingEnds { label }
            | Head::VotingEnds { label }
            | Head::Floor { label } => label.in_range(),
            Head::Start { own, floor } => own < group.g && floor.floor_in_range(),
            Head::Refused { number } => is_number(number),
        }
    }

    // What arrays it carries: readings in R, estimates in U, targets in S.
    #[tactic(auto, using(crate::proofs::Views::none_carrying), unfolding(crate::specs::Head::carried))]
    pub fn carries(self, group: Group) -> Carried
        ensures { result ≡ carried group self }
    {
        match self {
            Head::Reply { mask, .. } => carry(mask, 0, 0),
            Head::Update { .. } => carry(0, group.m, 0),
            Head::Setpoints { .. } => carry(0, 0, group.m),
            _ => carry(0, 0, 0),
        }
    }

    // Whether its message carries no array: it is of any kind but R, U and S.
    #[tactic(auto, using(crate::proofs::Views::none_carrying), unfolding(crate::specs::Head::is_plain))]
    pub fn is_plain(self) -> bool
        ensures { result ≡ is_plain self }
    {
        !matches!(
            self,
            Head::Reply { .. } | Head::Update { .. } | Head::Setpoints { .. }
        )
    }
}

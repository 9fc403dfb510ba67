// The kinds of line, and the letter of each.
ghost use Rattle.std.specs.Prelude.{◌≡◌};
ghost use Rattle.lines.specs.Table.{kind_of, letter_of};

// M Q R A U D S C E V F B X, and the settings' G N K.
#[derive(Clone, Copy, Debug, PartialEq, Eq)]
pub enum Kind {
    Reading,
    Query,
    Reply,
    Advert,
    Update,
    Vote,
    Setpoints,
    Due,
    CollectingEnds,
    VotingEnds,
    Floor,
    Start,
    Refused,
    Sizes,
    Filter,
    Run,
}

impl Kind {
    // No From and TryFrom: `letter_of` and `kind_of` are two tables, since X, G, N and K are no kinds of message that is read.
    pub(crate) fn letter(self) -> u8
        ensures { result ≡ letter_of self }
    {
        match self {
            Kind::Reading => b'M',
            Kind::Query => b'Q',
            Kind::Reply => b'R',
            Kind::Advert => b'A',
            Kind::Update => b'U',
            Kind::Vote => b'D',
            Kind::Setpoints => b'S',
            Kind::Due => b'C',
            Kind::CollectingEnds => b'E',
            Kind::VotingEnds => b'V',
            Kind::Floor => b'F',
            Kind::Start => b'B',
            Kind::Refused => b'X',
            Kind::Sizes => b'G',
            Kind::Filter => b'N',
            Kind::Run => b'K',
        }
    }
}

// The kind of a message that can be read: X, G, N and K are none.
#[tactic(auto, unfolding(crate::specs::Table::kind_of))]
pub(crate) fn kind_of(letter: u8) -> Option<Kind>
    ensures { result ≡ kind_of letter }
{
    match letter {
        b'M' => Some(Kind::Reading),
        b'Q' => Some(Kind::Query),
        b'R' => Some(Kind::Reply),
        b'A' => Some(Kind::Advert),
        b'U' => Some(Kind::Update),
        b'D' => Some(Kind::Vote),
        b'S' => Some(Kind::Setpoints),
        b'C' => Some(Kind::Due),
        b'E' => Some(Kind::CollectingEnds),
        b'V' => Some(Kind::VotingEnds),
        b'F' => Some(Kind::Floor),
        b'B' => Some(Kind::Start),
        _ => None,
    }
}

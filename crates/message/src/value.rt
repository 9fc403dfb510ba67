// A message as a value: its head, and beside it the arrays of R, U and S, blank in places that it does not use.
ghost use Rattle.std.specs.Prelude.{◌≡◌};
ghost use Rattle.message.specs.Message.{message_fits, plain};

use crate::head::Head;
use crate::readings::readings_in_range;
use floats::ranges::{state_in_range, targets_in_range};
use units::{Estimate, Group};

// Arrays of all sixteen places, whatever the kind: `message_fits` judges the places that a kind has no use for, too.
#[derive(Clone, Copy)]
pub struct Message {
    pub head: Head,
    pub readings: [u32; 16],
    pub estimates: [Estimate; 16],
    pub targets: [f64; 16],
}

impl Message {
    // A message that carries no array.
    #[tactic(auto, unfolding(crate::specs::Message::plain))]
    pub fn plain(head: Head) -> Message
        ensures { result ≡ plain head }
    {
        let blank = Estimate {
            x: 0.0,
            variance: 0.0,
        };
        Message {
            head,
            readings: [0u32; 16],
            estimates: [blank; 16],
            targets: [0.0f64; 16],
        }
    }

    #[tactic(auto, unfolding(crate::specs::Message::message_fits))]
    pub fn in_range(self, group: Group) -> bool
        ensures { result ≡ message_fits group self }
    {
        let carried = self.head.carries(group);
        group.in_range()
            && self.head.in_range(group)
            && readings_in_range(carried.readings, self.readings)
            && state_in_range(self.estimates, carried.estimates)
            && targets_in_range(self.targets, carried.targets)
    }
}

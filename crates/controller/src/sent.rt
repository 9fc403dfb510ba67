// What is sent, as whole messages.
ghost use Rattle.std.specs.Prelude.{◌≡◌};
ghost use Rattle.filter.specs.Compute.{set_points};
ghost use Rattle.controller.specs.Merge.{selected};
ghost use Rattle.controller.specs.Sent.{sent_message, with_estimates, with_readings, with_targets};

use crate::merge::select_readings;
use crate::state::Controller;
use filter::compute::targets_from;
use message::{Head, Message};
use units::Numbers;

impl Controller {
    #[tactic(auto, unfolding(message::specs::Message::plain))]
    fn reply(self, head: Head, mask: u32) -> Message
        ensures { result ≡ with_readings head (selected mask self.readings) }
    {
        Message {
            readings: select_readings(mask, self.readings),
            ..Message::plain(head)
        }
    }

    #[tactic(auto, unfolding(message::specs::Message::plain))]
    fn update(self, head: Head) -> Message
        ensures { result ≡ with_estimates head self.estimates }
    {
        let estimates = self.estimates;
        Message {
            estimates,
            ..Message::plain(head)
        }
    }

    #[tactic(auto, unfolding(message::specs::Message::plain))]
    fn setpoints(self, numbers: Numbers, head: Head) -> Message
        ensures { result ≡ with_targets head (set_points numbers self.estimates) }
    {
        Message {
            targets: targets_from(self.estimates, numbers),
            ..Message::plain(head)
        }
    }

    // A message that this controller sends after a step: R has the readings asked for, U the estimates, S the targets of the state.
    #[tactic(auto, unfolding(crate::specs::Sent::sent_message))]
    pub fn message(self, numbers: Numbers, head: Head) -> Message
        ensures { result ≡ sent_message numbers self head }
    {
        match head {
            Head::Reply { mask, .. } => self.reply(head, mask),
            Head::Update { .. } => self.update(head),
            Head::Setpoints { .. } => self.setpoints(numbers, head),
            _ => Message::plain(head),
        }
    }
}

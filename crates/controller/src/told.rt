// What a step tells its caller: the next controller, and the messages to send, whole.
ghost use Rattle.std.specs.Prelude.{◌≡◌};
ghost use Rattle.controller.specs.Step.{stepped};
ghost use Rattle.controller.specs.Told.{told, whole_of};

use crate::state::Controller;
use crate::step::{Answer, Said};
use message::{Head, Message};
use plan::Sent;
use units::Numbers;

// An answer with its messages whole.
pub type Told = Said<Message>;

impl Controller {
    // The message that is sent, whole, by the controller after the step.
    #[tactic(auto, unfolding(crate::specs::Told::whole_of))]
    fn whole(self, numbers: Numbers, sent: Sent) -> Option<Message>
        ensures { result ≡ whole_of numbers self sent }
    {
        sent.map(|head| self.message(numbers, head))
    }
}

impl Said<Head> {
    // The answer with its messages made.
    #[tactic(auto, unfolding(crate::specs::Told::told))]
    pub(crate) fn tell(self, numbers: Numbers) -> Told
        ensures { result ≡ told numbers self }
    {
        Said {
            next: self.next,
            first: self.next.whole(numbers, self.first),
            second: self.next.whole(numbers, self.second),
            verdict: self.verdict,
        }
    }
}

impl Controller {
    // One step: the state goes in, and comes back with what to send.
    pub fn step(self, numbers: Numbers, message: Message) -> Told
        ensures { result ≡ told numbers (stepped numbers self message) }
    {
        self.checked(numbers, message).tell(numbers)
    }
}

// One whole line's turn: what the program is at next, and what it wrote.
ghost use Rattle.std.specs.Prelude.{◌≡◌, length, take};
ghost use Rattle.fields.specs.Lines.{feed_at};
ghost use Rattle.fields.specs.Cut.{line_ending, line_in};
ghost use Rattle.session.specs.Feeding.{Heard, Wrote, advancing};
ghost use Rattle.session.specs.Turn.{hears, numbers_in, refusing, running_with, settles_to, turn_by, waits_for};
ghost use Rattle.lines.specs.Writing.{Written};
ghost use Rattle.controller.specs.Start.{start_of};

use crate::answer::put_answer;
use crate::carry::{first, take_on, unread};
use crate::stage::{Core, Stage};
use controller::{Controller, Said};
use fields::Carry;
use lines::Line;
use lines::read::First;
use lines::settle::{Settled, Wanted};
use lines::write::{Written, write_refusal};
use message::{Head, Message};
use units::{Refusal, RoundLabel};

// What is next stands beside what is written, which may be that there is no room: `line_done_by` goes by both.
#[derive(Clone, Copy)]
pub struct Turned {
    pub(crate) next: Core,
    pub(crate) written: Written,
}

impl Core {
    // Nothing is written.
    fn quiet(self) -> Turned
        ensures { result ≡ record { next = self; written = Ok 0 } }
    {
        Turned {
            next: self,
            written: Ok(0),
        }
    }

    fn refuse(self, why: Refusal, out: &mut [u8]) -> Turned
        ensures { Wrote (refusing self why) out.old out.new result }
    {
        Turned {
            next: self,
            written: write_refusal(why, out),
        }
    }

    // While the settings come.
    fn settle(self, settled: Settled, out: &mut [u8]) -> Turned
        ensures { Wrote (settles_to self settled.next settled.answer) out.old out.new result }
    {
        let Settled { next, answer } = settled;
        match answer {
            Ok(wanted) => match wanted {
                Wanted::More => self.settled(Stage::Settling, next).quiet(),
                Wanted::Whole => self.settled(Stage::Waiting, next).quiet(),
            },
            Err(why) => self.settled(Stage::Ended, next).refuse(why, out),
        }
    }

    fn begin(self, own: usize, floor: RoundLabel) -> Turned
        ensures { result ≡ record { next = running_with self (start_of (numbers_in self) own floor); written = Ok 0 } }
    {
        self.running(Controller::begin(self.numbers(), own, floor))
            .quiet()
    }

    // Before the first B every other message is 9.
    fn wait_for(self, head: Head, out: &mut [u8]) -> Turned
        ensures { Wrote (waits_for self head) out.old out.new result }
    {
        match head {
            Head::Start { own, floor } => self.begin(own, floor),
            _ => self.refuse(Refusal::Closed, out),
        }
    }

    // Before the first B.
    fn wait(self, line: Line, out: &mut [u8]) -> Turned
        ensures { Wrote (hears (λ a. waits_for self a.head) self line.message line.verdict) out.old out.new result }
    {
        match line.verdict {
            Err(why) => self.refuse(why, out),
            Ok(()) => self.wait_for(line.message.head, out),
        }
    }

    fn advance(self, message: Message, out: &mut [u8]) -> Turned
        ensures { Wrote (advancing self message) out.old out.new result }
    {
        let numbers = self.numbers();
        let Said {
            next,
            first,
            second,
            verdict,
        } = self.controller.advance(numbers, message);
        Turned {
            next: self.running(next),
            written: put_answer(next, numbers, first, second, verdict, out),
        }
    }

    // A running controller.
    fn run(self, line: Line, out: &mut [u8]) -> Turned
        ensures { Wrote (hears (advancing self) self line.message line.verdict) out.old out.new result }
    {
        match line.verdict {
            Err(why) => self.refuse(why, out),
            Ok(()) => self.advance(line.message, out),
        }
    }

    // The line that ends in an input, read where lines are read, and the place of its line feed.
    pub(crate) fn first(self, carry: Carry, input: &[u8]) -> First
        ensures { (result.feed ≡ feed_at input.now) × ((feed_at input.now ≡ length input.now → ⊥) → Heard self (line_ending carry input.now) result.line self.stage) }
    {
        match self.stage {
            Stage::Waiting | Stage::Running => first(carry, input, self.numbers().group),
            Stage::Settling | Stage::Ended => unread(input),
        }
    }

    // The turn of the line that ends with the first n bytes of an input; `line` is what it says, where lines are read.
    pub(crate) fn turn(
        self,
        line: Line,
        carry: Carry,
        input: &[u8],
        n: usize,
        out: &mut [u8],
    ) -> Turned
        requires { Heard self (line_in carry (take n input.now)) line self.stage }
        ensures { Wrote (turn_by advancing self (line_in carry (take n input.now)) self.stage) out.old out.new result }
    {
        match self.stage {
            Stage::Settling => self.settle(take_on(carry, self.settling, input, n), out),
            Stage::Waiting => self.wait(line, out),
            Stage::Running => self.run(line, out),
            Stage::Ended => self.quiet(),
        }
    }
}

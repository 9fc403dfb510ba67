// A session: bytes in, bytes out, however the input is cut into pieces.
ghost use Rattle.std.specs.Prelude.{◌≡◌, length};
ghost use Rattle.lines.specs.Writing.{buffer_of};
ghost use Rattle.session.specs.Feeding.{fed, fed_text, finished, piece_held, is_ended, last_of, last_turn, session_start, line_done_by, unended_line};

use crate::answer::put_verdict;
use crate::stage::{Core, Stage};
use crate::turn::Turned;
use fields::Carry;
use lines::read::First;
use lines::settle::Settling;
use units::limits::LINE;
use units::{Refusal, Verdict};

#[derive(Clone, Copy)]
pub struct Session {
    pub(crate) core: Core,
    pub(crate) carry: Carry,
}

// The session after a call, how much of the input it took, how much it wrote, and 16 where there was too little room.
// All of it stands with 16 too, which says that nothing is taken: `short` and `Untouched` name each.
#[derive(Clone, Copy)]
pub struct Fed {
    pub next: Session,
    pub took: usize,
    pub wrote: usize,
    pub verdict: Verdict,
}

// Why a piece of n bytes at the end of the input is refused.
#[tactic(auto, unfolding(crate::specs::Feeding::unended, units::specs::Pick::pick))]
fn unended(n: usize) -> Refusal
    ensures { result ≡ Rattle.session.specs.Feeding.unended n }
{
    if LINE < n {
        Refusal::Long
    } else {
        Refusal::Unended
    }
}

#[tactic(auto, unfolding(crate::specs::Feeding::unended_line, units::specs::Pick::pick))]
fn unended_line(n: usize) -> Verdict
    ensures { result ≡ unended_line n }
{
    if n == 0 { Ok(()) } else { Err(unended(n)) }
}

// What the end of the input says, with n bytes held.
#[tactic(auto, unfolding(crate::specs::Feeding::last_of))]
fn last_of(settling: Settling, n: usize, stage: Stage) -> Verdict
    ensures { result ≡ last_of settling n stage }
{
    match stage {
        Stage::Settling => Err(Refusal::Settings {
            line: settling.line(),
            reason: unended(n).number(),
        }),
        Stage::Waiting | Stage::Running => unended_line(n),
        Stage::Ended => Ok(()),
    }
}

impl Session {
    // Nothing is read.
    #[tactic(auto, unfolding(crate::specs::Feeding::session_start))]
    pub fn start() -> Session
        ensures { result ≡ session_start }
    {
        Session {
            core: Core::start(),
            carry: Carry::start(),
        }
    }

    // Whether nothing more is answered: the settings were refused.
    pub fn ended(self) -> bool
        ensures { result ≡ is_ended self.core.stage }
    {
        matches!(self.core.stage, Stage::Ended)
    }

    // The line is closed, or nothing is changed where there was too little room.
    #[tactic(auto, unfolding(crate::specs::Feeding::line_done_by))]
    fn line_done(self, turned: Turned, end: usize) -> Fed
        ensures { result ≡ line_done_by self end turned.next turned.written }
    {
        match turned.written {
            Ok(len) => Fed {
                next: Session {
                    core: turned.next,
                    carry: self.carry.emptied(),
                },
                took: end,
                wrote: len,
                verdict: Ok(()),
            },
            Err(why) => Fed {
                next: self,
                took: 0,
                wrote: 0,
                verdict: Err(why),
            },
        }
    }

    // An input without a line feed.
    fn hold(self, input: &[u8]) -> Fed
        ensures { result ≡ piece_held self input.now }
    {
        Fed {
            next: Session {
                core: self.core,
                carry: self.carry.hold(input, input.len()),
            },
            took: input.len(),
            wrote: 0,
            verdict: Ok(()),
        }
    }

    // Takes the next piece of the input, up to the end of one line at most, and writes that line's answers.
    pub fn feed(self, input: &[u8], out: &mut [u8]) -> Fed
        ensures { (result ≡ fed self input.now (length out.old)) × (out.new ≡ buffer_of (fed_text self input.now) out.old) }
    {
        let First { line, feed } = self.core.first(self.carry, input);
        if feed == input.len() {
            return self.hold(input);
        }
        let turned = self.core.turn(line, self.carry, input, feed + 1, out);
        self.line_done(turned, feed + 1)
    }

    // The input has ended.
    pub fn finish(self, out: &mut [u8]) -> Fed
        ensures { (result ≡ finished self (length out.old)) × (out.new ≡ buffer_of (last_turn self).text out.old) }
    {
        let settling = self.core.settling;
        let last = last_of(settling, self.carry.len(), self.core.stage);
        let turned = Turned {
            next: self.core.settled(Stage::Ended, settling),
            written: put_verdict(last, out),
        };
        self.line_done(turned, 0)
    }
}

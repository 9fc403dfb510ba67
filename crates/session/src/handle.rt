// A block of input: as much of it as there is room to answer, and all its answers in one buffer.
ghost use Rattle.std.specs.Prelude.{◌≡◌, length};
ghost use Rattle.lines.specs.Writing.{buffer_of};
ghost use Rattle.session.specs.Handling.{handled, handled_text, room_verdict};

use crate::feed::{Fed, Session};
use crate::run::ROOM;
use units::{Refusal, Verdict};

// 16 where there is too little room.
#[tactic(auto, unfolding(crate::specs::Handling::room_verdict, units::specs::Pick::pick))]
fn room_verdict(room: usize) -> Verdict
    ensures { result ≡ room_verdict room }
{
    if room < ROOM {
        Err(Refusal::Room)
    } else {
        Ok(())
    }
}

impl Session {
    // Takes a block as so many calls of `serve` would, each lent the rest of the buffer, while there is room for two lines.
    pub fn handle(self, input: &[u8], out: &mut [u8]) -> Fed
        ensures { (result ≡ handled self input.now (length out.old)) × (out.new ≡ buffer_of (handled_text self input.now (length out.old)) out.old) }
    {
        let mut next = self;
        let mut at: usize = 0;
        let mut filled: usize = 0;
        // A while: `serve` takes a piece of any length.
        while (at < input.len()) & (ROOM <= out.len() - filled) {
            let fed = next.serve(&input[at..], &mut out[filled..]);
            next = fed.next;
            at += fed.took;
            filled += fed.wrote;
        }
        Fed {
            next,
            took: at,
            wrote: filled,
            verdict: room_verdict(out.len()),
        }
    }
}

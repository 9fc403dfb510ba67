// What is kept of an export that comes in blocks: its first 307,201 bytes, enough to know the answer, and the count of all its lines.
ghost use Rattle.std.specs.Prelude.{◌≡◌};
ghost use Rattle.store.specs.Kept.{kept_buffer, kept_on, kept_room, kept_start};
ghost use Rattle.store.specs.Stored.{answer_in, buffer_in};
ghost use Rattle.store.specs.Text.{kept_outcome, tell_buffer, tell_in, told_buffer, told_of};

use crate::count::Count;
use crate::gather::ROWS;
use crate::stored::{Place, Refused, Serials};
use crate::write::write_runs;
use fields::put_part;
use lines::write::write_refusal;
use units::Refusal;
use units::limits::LINE;

// One byte more than 512 lines may have.
pub const KEPT: usize = ROWS * LINE + 1;

// How many bytes are kept, in a buffer that is lent, and the count of all that came.
#[derive(Clone, Copy)]
pub struct Kept {
    pub(crate) len: usize,
    pub(crate) count: Count,
}

// How many bytes are to be written, and where a refusal's cause stands.
#[derive(Clone, Copy)]
pub struct Told {
    pub len: usize,
    pub place: Place,
}

// How many more bytes are kept where so many are and a buffer has so many places.
fn kept_room(len: usize, places: usize) -> usize
    ensures { result ≡ kept_room len places }
{
    places.min(KEPT).saturating_sub(len)
}

// The line X of a refusal in place of K lines.
fn tell(answer: Result<usize, Refused>, buf: &mut [u8]) -> Told
    ensures { (result ≡ tell_in answer buf.old) × (buf.new ≡ tell_buffer answer buf.old) }
{
    match answer {
        Ok(len) => Told {
            len,
            place: Place::Nowhere,
        },
        Err(Refused { why, place }) => Told {
            len: write_refusal(why, buf).unwrap_or(0),
            place,
        },
    }
}

impl Kept {
    pub fn start() -> Kept
        ensures { result ≡ kept_start }
    {
        Kept {
            len: 0,
            count: Count::start(),
        }
    }

    // Keeps what there is room for of a further block, and counts all of it.
    pub fn on(self, block: &[u8], buf: &mut [u8]) -> Kept
        ensures { (result ≡ kept_on self block.now buf.old) × (buf.new ≡ kept_buffer self block.now buf.old) }
    {
        let room = kept_room(self.len, buf.len()).min(block.len());
        Kept {
            len: put_part(buf, self.len, &block[..room]),
            count: self.count.on(block),
        }
    }

    // (day, serials, buf) as they were handed in, each to another check.
    // The store's answer from what is kept.
    fn write(
        self,
        held: &[u8],
        day: &[u8],
        serials: Serials,
        buf: &mut [u8],
    ) -> Result<usize, Refused>
        ensures { (result ≡ answer_in (kept_outcome self held.now day.now serials) buf.old) × (buf.new ≡ buffer_in (kept_outcome self held.now day.now serials) buf.old) }
    {
        if ROWS < self.count.lines() {
            return Err(Refused {
                why: Refusal::Full,
                place: Place::Nowhere,
            });
        }
        write_runs(&held[..self.len.min(held.len())], day, serials, buf)
    }

    // Writes the K lines, or the line X, of what is kept.
    #[tactic(auto, unfolding(crate::specs::Text::told_of, crate::specs::Text::told_buffer))]
    pub fn answer(self, held: &[u8], day: &[u8], serials: Serials, buf: &mut [u8]) -> Told
        ensures { (result ≡ told_of self held.now day.now serials buf.old) × (buf.new ≡ told_buffer self held.now day.now serials buf.old) }
    {
        let answer = self.write(held, day, serials, buf);
        tell(answer, buf)
    }
}

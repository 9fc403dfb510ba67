// How many lines a stream has, up to one more than an export may have.
ghost use Rattle.std.specs.Prelude.{◌≡◌};
ghost use Rattle.store.specs.Kept.{count_byte, count_start, counted_on, more_lines};

use crate::gather::ROWS;
use fields::text::LINE_FEED;

// The lines so far, and whether the last has not ended.
// Both count in every state: `within` tells of the last line, not of `lines`.
#[derive(Clone, Copy)]
pub struct Count {
    pub(crate) lines: usize,
    pub(crate) within: bool,
}

// One line more, and no more than is needed to know that there are too many.
#[tactic(auto, unfolding(units::specs::Pick::pick))]
fn more_lines(lines: usize) -> usize
    ensures { result ≡ more_lines lines }
{
    if lines <= ROWS { lines + 1 } else { lines }
}

impl Count {
    pub fn start() -> Count
        ensures { result ≡ count_start }
    {
        Count {
            lines: 0,
            within: false,
        }
    }

    // How many lines, 513 standing for all above 512.
    pub fn lines(self) -> usize
        ensures { result ≡ self.lines }
    {
        self.lines
    }

    #[tactic(auto, unfolding(units::specs::Pick::pick))]
    fn byte(self, b: u8) -> Count
        ensures { result ≡ count_byte self b }
    {
        let lines = if self.within {
            self.lines
        } else {
            more_lines(self.lines)
        };
        Count {
            lines,
            within: b != LINE_FEED,
        }
    }

    // Counts on over further bytes.
    pub fn on(self, bytes: &[u8]) -> Count
        ensures { result ≡ counted_on self bytes.now }
    {
        bytes.iter().fold(self, |count, b| count.byte(*b))
    }
}

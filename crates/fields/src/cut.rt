// A stream of bytes cut into lines: what is held of a line that has not ended is its first 601 bytes, enough to know that it is too long.
ghost use Rattle.std.specs.Prelude.{◌≡◌, eqb, take};
ghost use Rattle.fields.specs.Cut.{carry_start, cut_at, emptied, held_with};

use crate::line::scan;
use crate::put::put_part;
use units::limits::LINE;

// One byte more than a line may have.
pub const HELD: usize = LINE + 1;

// The first `len` bytes count.
// A length beside its bytes: fixed memory, by value, and handed out whole (`bytes`).
#[derive(Clone, Copy)]
pub struct Carry {
    pub(crate) len: usize,
    pub(crate) bytes: [u8; HELD],
}

// What is held after a piece, how much of the piece that took, and whether the line ended with it.
// Each of them counts whether the line ended or not (`cut_at`).
#[derive(Clone, Copy)]
pub struct Cut {
    pub carry: Carry,
    pub took: usize,
    pub ended: bool,
}

// How many of n more bytes are held.
#[tactic(auto, using(crate::proofs::Holding::fitting_least))]
fn fitting(len: usize, n: usize) -> usize
    ensures { result ≡ Rattle.fields.specs.Cut.fitting len n }
{
    n.min(HELD.saturating_sub(len))
}

impl Carry {
    pub fn start() -> Carry
        ensures { result ≡ carry_start }
    {
        Carry {
            len: 0,
            bytes: [0u8; HELD],
        }
    }

    // How many bytes are held.
    pub fn len(self) -> usize
        ensures { result ≡ self.len }
    {
        self.len
    }

    pub fn is_empty(self) -> bool
        ensures { result ≡ eqb self.len 0 }
    {
        self.len == 0
    }

    // The bytes held, and others of no account after them.
    pub fn bytes(self) -> [u8; HELD]
        ensures { result ≡ self.bytes }
    {
        self.bytes
    }

    // Nothing is held; the bytes stay, of no account.
    pub fn emptied(self) -> Carry
        ensures { result ≡ emptied self }
    {
        Carry { len: 0, ..self }
    }

    // Holds the first n bytes of an input too.
    pub fn hold(self, input: &[u8], n: usize) -> Carry
        ensures { result ≡ held_with self (take n input.now) }
    {
        let mut bytes = self.bytes;
        let k = fitting(self.len, n).min(input.len());
        let len = put_part(&mut bytes, self.len, &input[..k]);
        Carry { len, bytes }
    }

    // Takes a piece up to its first line feed and with it, or all of it where it has none.
    pub fn cut(self, piece: &[u8]) -> Cut
        ensures { result ≡ cut_at self piece.now }
    {
        let feed = scan(piece).feed;
        if feed == piece.len() {
            let carry = self.hold(piece, feed);
            return Cut {
                carry,
                took: feed,
                ended: false,
            };
        }
        let carry = self.hold(piece, feed + 1);
        Cut {
            carry,
            took: feed + 1,
            ended: true,
        }
    }
}

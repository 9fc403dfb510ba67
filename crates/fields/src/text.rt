// Texts, which tabs part into fields and a line feed ends.
ghost use Rattle.std.specs.Prelude.{◌≡◌, drop};
ghost use Rattle.fields.specs.Text.{ends, starts};

pub const TAB: u8 = b'\t';

pub const LINE_FEED: u8 = b'\n';

// Whether a byte stands at a place.
#[tactic(auto, using(crate::proofs::Reading::starts_none, crate::proofs::Reading::starts_some))]
pub fn is_at(text: &[u8], at: usize, b: u8) -> bool
    ensures { result ≡ starts b (drop at text.now) }
{
    text.get(at).is_some_and(|c| *c == b)
}

// Whether a field ends before a place: at the text's end or at a tab.
#[tactic(auto, using(crate::proofs::Reading::ends_none, crate::proofs::Reading::ends_some))]
pub fn ends_at(text: &[u8], at: usize) -> bool
    ensures { result ≡ ends (drop at text.now) }
{
    text.get(at).is_none_or(|c| *c == TAB)
}

// The tabs before a line's first line feed, and its place; the length where there is none.
// No Option of a feed: `feed_at` and `scanned` give the length where there is none, and walks go up to it.
#[derive(Clone, Copy)]
pub struct Scan {
    pub tabs: usize,
    pub feed: usize,
}

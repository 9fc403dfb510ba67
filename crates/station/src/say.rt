// Writing to a descriptor: all of a text, or that it failed.
ghost use Rattle.std.specs.Prelude.{◌≤◌, length};
ghost use Rattle.std.specs.Io.{WritesAtMost};

use crate::call::{Outcome, budget, said, writes_left};
use std::io::Write;

fn write_some(to: &mut impl Write, part: &[u8]) -> Outcome
    ensures { WritesAtMost result part.now }
{
    said(to.write(part), part)
}

// Writes the first n bytes, each once and in order, and says whether all were taken. A write that took a part, or was interrupted, goes on where it
// stopped; after any other not one byte more is written.
pub(crate) fn say(to: &mut impl Write, text: &[u8], n: usize) -> bool
    requires { n ≤ length text.now }
{
    let mut at: usize = 0;
    let mut left = budget();
    // A while: a write takes a piece of any length.
    while at < n && 0 < left {
        let put = write_some(to, &text[at..n]);
        at += put.unwrap_or(0);
        left = writes_left(put, left);
    }
    at == n
}

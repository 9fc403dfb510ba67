// One pass over a line, before any field of it is read.
ghost use Rattle.std.specs.Prelude.{◌≡◌};
ghost use Rattle.fields.specs.Text.{scanned};

use crate::text::{LINE_FEED, Scan, TAB};

pub fn scan(line: &[u8]) -> Scan
    ensures { result ≡ scanned line.now }
{
    let mut tabs: usize = 0;
    for (feed, b) in line.iter().enumerate() {
        if *b == LINE_FEED {
            return Scan { tabs, feed };
        }
        if *b == TAB {
            tabs += 1;
        }
    }
    Scan {
        tabs,
        feed: line.len(),
    }
}

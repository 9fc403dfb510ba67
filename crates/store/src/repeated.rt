// Whether two certificates of one meter share a day.
ghost use Rattle.std.specs.Prelude.{◌≡◌, ◌<◌, length};
ghost use Rattle.store.specs.First.{place_below};
ghost use Rattle.store.specs.Repeated.{repeated_at, same_name, shares, stood_at};

use crate::row::Row;
use message::Certificate;

// Byte for byte.
pub fn same_name(a: Certificate, b: Certificate) -> bool
    ensures { result ≡ same_name a b }
{
    a == b
}

// Of one meter and one day; the days are looked at first, since most differ.
fn is_shared(a: Row, b: Row) -> bool
    ensures { result ≡ shares a b }
{
    a.day == b.day && same_name(a.serial, b.serial)
}

// Whether row i's meter and day stand in an earlier row.
fn stood(rows: &[Row], i: usize) -> bool
    requires { i < length rows.now }
    ensures { result ≡ stood_at rows.now i }
{
    let row = rows[i];
    rows[..i].iter().any(|other| is_shared(*other, row))
}

// The first row, from 0, whose meter and day stood in an earlier row.
pub(crate) fn repeated_at(rows: &[Row]) -> Option<usize>
    ensures { result ≡ place_below (repeated_at rows.now) (length rows.now) }
{
    (0..rows.len()).find(|i| stood(rows, *i))
}

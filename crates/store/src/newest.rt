// The newest certificate of a meter.
ghost use Rattle.std.specs.Prelude.{◌≡◌};
ghost use Rattle.store.specs.Newest.{better, newest};

use crate::repeated::same_name;
use crate::row::{Row, no_row};
use message::Certificate;

// A row where it is in force and later than the best so far, else the best.
#[tactic(auto, unfolding(units::specs::Pick::pick))]
fn better_of(best: Row, row: Row, serial: Certificate, day: u64) -> Row
    ensures { result ≡ better serial day best row }
{
    if same_name(row.serial, serial) && row.day <= day && best.day < row.day {
        return row;
    }
    best
}

// A meter's newest certificate not after a day; no row where it has none.
pub(crate) fn newest_of(rows: &[Row], serial: Certificate, day: u64) -> Row
    ensures { result ≡ newest serial day rows.now }
{
    rows.iter()
        .fold(no_row(), |best, row| better_of(best, *row, serial, day))
}

// A raw reading at a place of an array.
ghost use Rattle.std.specs.Prelude.{◌≡◌};
ghost use Rattle.units.specs.Reading.{reading_place};

use crate::limits::RAW_TOP;

// Whether a place holds a reading in range, or 0 where there is none.
pub fn reading_place(here: bool, raw: u32) -> bool
    ensures { result ≡ reading_place here raw }
{
    if here { raw <= RAW_TOP } else { raw == 0 }
}

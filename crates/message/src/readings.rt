// Readings by run, beside the mask of the runs that have one.
ghost use Rattle.std.specs.Prelude.{◌≡◌};
ghost use Rattle.message.specs.Readings.{readings_fit};

use units::mask::has;
use units::reading::reading_place;

pub fn readings_in_range(mask: u32, readings: [u32; 16]) -> bool
    ensures { result ≡ readings_fit mask readings }
{
    readings
        .iter()
        .enumerate()
        .all(|(i, raw)| reading_place(has(mask, i), *raw))
}

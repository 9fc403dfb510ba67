// What the store is asked, and what it answers.
ghost use Rattle.std.specs.Prelude.{◌≡◌, ◌≤◌};
ghost use Rattle.store.specs.First.{first_of, place_below};
ghost use Rattle.store.specs.Stored.{bad_serial, stored_number};

use message::Certificate;
use units::Refusal;

// The serials of the meters in run order; places at m and above are not looked at. m may be above 16, which is refused; memory is fixed, so there is no Vec.
#[derive(Clone, Copy)]
pub struct Serials {
    pub m: usize,
    pub each: [Certificate; 16],
}

// Where a refusal's cause stands.
#[derive(Clone, Copy)]
pub enum Place {
    // A place like the others, by which `place_values` tells of a refusal that has none.
    Nowhere,
    Line { line: u32 },
    Day,
    Count,
    Run { run: u32 },
}

// Why there are no K lines.
#[derive(Clone, Copy)]
pub struct Refused {
    pub why: Refusal,
    pub place: Place,
}

// The number of an answer, which is how many bytes the K lines have, or why there are none; 0 where there are.
pub fn number(answer: Result<usize, Refused>) -> u32
    ensures { result ≡ stored_number answer }
{
    match answer {
        Ok(_) => 0,
        Err(refused) => refused.why.number(),
    }
}

// The first serial that is none.
pub(crate) fn bad_serial(serials: Serials) -> Option<usize>
    requires { serials.m ≤ 16 }
    ensures { result ≡ place_below (first_of (bad_serial serials) serials.m) serials.m }
{
    serials.each[..serials.m]
        .iter()
        .position(|serial| !serial.in_range(true))
}

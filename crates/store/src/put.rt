// The K lines of settings, put one after the other: all of them or none.
ghost use Rattle.std.specs.Prelude.{◌≡◌, true, ◌++◌, ◌<◌, ◌≤◌, drop, length};
ghost use Rattle.message.specs.Settings.{settings_fit};
ghost use Rattle.store.specs.Runs.{run_at, runs_text};
ghost use Rattle.store.specs.Stored.{answer_in, buffer_in, says};

use crate::stored::{Place, Refused};
use fields::put_part;
use lines::setting::write_setting;
use message::Settings;
use units::Refusal;

// More than all K lines of any settings: none is longer than 37 bytes, and there are sixteen at the most.
pub const RUNS_TEXT: usize = 600;

fn put_one(settings: Settings, i: usize, out: &mut [u8]) -> usize
    requires { (settings_fit settings ≡ true) × (i < settings.numbers.group.m) × (37 ≤ length out.old) }
    ensures { (result ≡ length (run_at settings i)) × (out.new ≡ run_at settings i ++ drop (length (run_at settings i)) out.old) }
{
    match write_setting(settings, (i + 3) as u32, out) {
        Ok(len) => len,
        Err(_) => 0,
    }
}

// Puts them all; the answer is how many bytes they have.
fn put_runs(settings: Settings, out: &mut [u8]) -> usize
    requires { (settings_fit settings ≡ true) × (600 ≤ length out.old) }
    ensures { (result ≡ length (runs_text settings settings.numbers.group.m)) × (out.new ≡ runs_text settings settings.numbers.group.m ++ drop (length (runs_text settings settings.numbers.group.m)) out.old) }
{
    let m = settings.numbers.group.m;
    let mut at: usize = 0;
    for i in 0..m {
        at += put_one(settings, i, &mut out[at..]);
    }
    at
}

// Writes the K lines of settings in range, or 16.
pub(crate) fn write_lines(settings: Settings, buf: &mut [u8]) -> Result<usize, Refused>
    requires { settings_fit settings ≡ true }
    ensures { (result ≡ answer_in (says (runs_text settings settings.numbers.group.m)) buf.old) × (buf.new ≡ buffer_in (says (runs_text settings settings.numbers.group.m)) buf.old) }
{
    let mut own = [0u8; RUNS_TEXT];
    let len = put_runs(settings, &mut own);
    if buf.len() < len {
        return Err(Refused {
            why: Refusal::Room,
            place: Place::Nowhere,
        });
    }
    put_part(buf, 0, &own[..len]);
    Ok(len)
}

// The rows found for the runs, and settings made of them.
ghost use Rattle.std.specs.Prelude.{◌≡◌, ℕ, ◌<◌, ◌≤◌, get_or, length};
ghost use Rattle.store.specs.First.{first_of, place_below};
ghost use Rattle.store.specs.Row.{no_row};
ghost use Rattle.store.specs.Runs.{factor_at, found, is_blank, settings_from};

use crate::newest::newest_of;
use crate::row::{Row, no_row};
use crate::stored::Serials;
use message::Settings;
use units::{Group, Numbers};

// Each run's newest certificate not after a day.
pub(crate) fn pick_rows(rows: &[Row], serials: Serials, day: u64) -> [Row; 16]
    requires { serials.m ≤ 16 }
    ensures { (i : ℕ) → i < serials.m → get_or result i no_row ≡ found serials day rows.now i }
{
    let mut picked = [no_row(); 16];
    for i in 0..serials.m {
        picked[i] = newest_of(rows, serials.each[i], day);
    }
    picked
}

// The first run that has no certificate in force.
pub(crate) fn lacking(runs: &[Row]) -> Option<usize>
    ensures { result ≡ place_below (first_of (λ i. is_blank (get_or runs.now i no_row)) (length runs.now)) (length runs.now) }
{
    runs.iter().position(|row| row.day == 0)
}

// Run i's row; no row at a place that is no run.
fn run_at(runs: &[Row], i: usize) -> Row
    ensures { result ≡ get_or runs.now i no_row }
{
    runs.get(i).copied().unwrap_or(no_row())
}

#[tactic(auto, using(crate::proofs::Fills::factor_there))]
fn factor_at(runs: &[Row], i: usize) -> u32
    ensures { result ≡ factor_at (length runs.now) (λ j. get_or runs.now j no_row) i }
{
    (run_at(runs, i).factor % 4294967296) as u32
}

// Settings of one controller with the least numbers, and the runs of these rows.
pub(crate) fn settings_of(runs: &[Row]) -> Settings
    ensures { result ≡ settings_from 1 (length runs.now) 1 1 1 (λ i. get_or runs.now i no_row) }
{
    let m = runs.len();
    Settings {
        numbers: Numbers {
            group: Group { g: 1, m },
            q: 1,
            r: 1,
            p: 1,
            factors: std::array::from_fn(|i| factor_at(runs, i)),
            weights: std::array::from_fn(|i| u32::from(i < m)),
        },
        certificates: std::array::from_fn(|i| run_at(runs, i).certificate),
    }
}

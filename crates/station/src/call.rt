// What the system answers to a call that moves bytes, and how often a call is made again.
ghost use Rattle.std.specs.Prelude.{◌≡◌, ◌-◌, ◌^◌, ◌≤◌, IfErr, IfOk, IsErr, Ok, length};
ghost use Rattle.std.specs.Io.{WritesAtMost};
ghost use Rattle.station.specs.Calls.{outcome_of, reads_again, writes_left};

use std::io;

// errno's number of a call that a signal interrupted.
const EINTR: i32 = 4;

// Why a call moved no byte: it was interrupted and is made again, or it failed.
#[derive(Clone, Copy)]
pub enum Stop {
    Again,
    Failed,
}

// How many bytes were moved.
pub type Outcome = Result<usize, Stop>;

// More than any station lives to count.
pub(crate) fn budget() -> u64
    ensures { result ≡ 2 ^ 64 - 1 }
{
    u64::MAX
}

// What an answer means, by errno where it is negative: a call that a signal interrupted is made again.
#[tactic(auto, unfolding(crate::specs::Calls::outcome_of, crate::specs::Calls::is_interrupt, units::specs::Pick::pick))]
pub(crate) fn meaning(got: isize, error: i32, part: &[u8]) -> Outcome
    ensures { result ≡ outcome_of got error (length part.now) }
{
    if got < 0 {
        if error == EINTR {
            return Err(Stop::Again);
        }
        return Err(Stop::Failed);
    }
    Ok((got as usize).min(part.len()))
}

// What std says of a call, by the number that the system gave: how many bytes, or that it failed, by errno where it did.
// By numbers: `outcome_of`, which is promised, is of errno's number; an error's kind would leave that promise out.
pub(crate) fn said(answer: io::Result<usize>, part: &[u8]) -> Outcome
    requires { WritesAtMost answer part.now }
    ensures few { WritesAtMost result part.now }
    ensures came { IfOk answer (λ n. result ≡ Ok n) }
    ensures failed { IfErr answer (λ _. IsErr result) }
{
    match answer {
        Ok(n) => meaning(n as isize, 0, part),
        Err(e) => meaning(-1, e.raw_os_error().unwrap_or(0), part),
    }
}

// How many more writes there may be: none after one that failed or took nothing, and one less after one that was interrupted.
#[tactic(auto, unfolding(crate::specs::Calls::writes_left))]
pub(crate) fn writes_left(outcome: Outcome, left: u64) -> u64
    requires { 1 ≤ left }
    ensures { result ≡ writes_left left outcome }
{
    match outcome {
        Ok(0) => 0,
        Ok(_) => left,
        Err(Stop::Again) => left - 1,
        Err(Stop::Failed) => 0,
    }
}

// A read is made again only where it was interrupted.
#[tactic(auto, unfolding(crate::specs::Calls::reads_again))]
pub(crate) fn reads_again(outcome: Outcome) -> bool
    ensures { result ≡ reads_again outcome }
{
    matches!(outcome, Err(Stop::Again))
}

// Reading standard input.
ghost use Rattle.std.specs.Prelude.{◌≤◌, IfOk, length};

use crate::call::{Outcome, Stop, budget, reads_again, said};
use std::io::Read;

fn read_some(input: &mut impl Read, block: &mut [u8]) -> Outcome
    ensures { IfOk result (λ n. n ≤ length block.old) }
{
    let got = input.read(block);
    said(got, block)
}

// Reads a block: how many bytes came, none at the end of the input; or that reading failed. An interrupted read is made again.
pub(crate) fn hear(input: &mut impl Read, block: &mut [u8]) -> Outcome
    ensures { IfOk result (λ n. n ≤ length block.old) }
{
    for _ in 0..budget() {
        let got = read_some(input, block);
        if !reads_again(got) {
            return got;
        }
    }
    Err(Stop::Again)
}

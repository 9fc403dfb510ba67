// Numbers read where their spelling stands, whatever comes after it: the quick way along a line that is as it should be.
ghost use Rattle.std.specs.Prelude.{◌≡◌, ◌+◌, ◌≤◌, min, ltb, drop, length};
ghost use Rattle.fields.specs.Digits.{digit_of, digits_of, value_from};
ghost use Rattle.fields.specs.Field.{read_here};
ghost use Rattle.fields.specs.declared.spelling.Spelling.{Spelling};

use crate::digit::digits_at;
use crate::field::{Fault, Field, judged};
use crate::spelling::{Limit, Spelling};

// Digits from a place on: the number that they say, and the place after them.
#[derive(Clone, Copy)]
pub struct Run {
    pub n: u64,
    pub end: usize,
}

// Sixteen places on, or the end.
fn near(len: usize, at: usize) -> usize
    requires { at ≤ len }
    ensures { result ≡ min len (at + 16) }
{
    at + (len - at).min(16)
}

#[tactic(auto, using(crate::proofs::Quicks::digit_test))]
fn is_digit(b: u8) -> bool
    ensures { result ≡ ltb (digit_of b) 10 }
{
    b.is_ascii_digit()
}

// The decimal digits from a place on, sixteen at the most.
fn decimal_run(text: &[u8], at: usize) -> Run
    requires { at ≤ length text.now }
    ensures { (result.end ≡ at + length (digits_of 16 (drop at text.now))) × (value_from 10 0 (digits_of 16 (drop at text.now)) ≡ Some result.n) }
{
    let stop = near(text.len(), at);
    let mut n: u64 = 0;
    for end in at..stop {
        let b = text[end];
        if !is_digit(b) {
            return Run { n, end };
        }
        n = n * 10 + u64::from(b - b'0');
    }
    Run { n, end: stop }
}

fn decimal_here(text: &[u8], at: usize, limit: Limit) -> Result<Field, Fault>
    requires { limit.spelling ≡ Spelling.Decimal }
    ensures { result ≡ read_here text.now at limit.spelling limit.low limit.high }
{
    if text.len() < at {
        return Err(Fault::Form);
    }
    let run = decimal_run(text, at);
    let end = run.end;
    if end == at {
        return Err(Fault::Form);
    }
    if (text[at] == b'0') & (at + 1 < end) {
        return Err(Fault::Form);
    }
    judged(limit, run.n, end)
}

// The decimal number that stands at a place, whatever comes after it, and the place after it.
#[tactic(auto, using(crate::proofs::Quicks::here_past))]
pub fn read_decimal_here(text: &[u8], at: usize, low: u64, high: u64) -> Result<Field, Fault>
    ensures { result ≡ read_here text.now at Spelling.Decimal low high }
{
    let limit = Limit {
        spelling: Spelling::Decimal,
        low,
        high,
    };
    decimal_here(text, at, limit)
}

// The value of a hex digit, 16 of any other byte: `digit` in a byte, for speed. The tests are nested so that the compiler takes sixteen bytes at once.
#[tactic(auto, unfolding(crate::specs::Digits::digit_of, crate::specs::Digits::pick))]
fn nibble(b: u8) -> u8
    ensures { result ≡ digit_of b }
{
    if b <= b'9' {
        if b < b'0' { 16 } else { b - b'0' }
    } else {
        if (b < b'A') | (b'F' < b) {
            16
        } else {
            b - (b'A' - 10)
        }
    }
}

// No byte stops the sixteen: the largest value tells at the end whether all were digits.
fn float_here(text: &[u8], at: usize, limit: Limit) -> Result<Field, Fault>
    requires { limit.spelling ≡ Spelling.Hex16 }
    ensures { result ≡ read_here text.now at limit.spelling limit.low limit.high }
{
    if text.len() < at {
        return Err(Fault::Form);
    }
    let Some(digits) = text[at..].first_chunk::<16>() else {
        return Err(Fault::Form);
    };
    let mut n: u64 = 0;
    let mut worst: u8 = 0;
    for b in digits {
        let d = nibble(*b);
        n = n * 16 + u64::from(d % 16);
        worst = worst.max(d);
    }
    if 15 < worst {
        return Err(Fault::Form);
    }
    judged(limit, n, at + 16)
}

fn mask_here(text: &[u8], at: usize, limit: Limit) -> Result<Field, Fault>
    requires { limit.spelling ≡ Spelling.Hex4 }
    ensures { result ≡ read_here text.now at limit.spelling limit.low limit.high }
{
    let n = digits_at::<16>(text, at, 4, 0).ok_or(Fault::Form)?;
    judged(limit, n, at + 4)
}

// The number whose spelling stands at a place, whatever comes after it, and the place after it; a factor is read as a whole field alone.
#[tactic(auto, using(crate::proofs::Quicks::here_past, crate::proofs::Quicks::here_factor))]
pub fn read_here(text: &[u8], at: usize, limit: Limit) -> Result<Field, Fault>
    ensures { result ≡ read_here text.now at limit.spelling limit.low limit.high }
{
    match limit.spelling {
        Spelling::Decimal => decimal_here(text, at, limit),
        Spelling::Hex4 => mask_here(text, at, limit),
        Spelling::Hex16 => float_here(text, at, limit),
        Spelling::Factor => Err(Fault::Form),
    }
}

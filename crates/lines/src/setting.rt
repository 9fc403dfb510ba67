// Writing the lines of given settings.
ghost use Rattle.std.specs.Prelude.{◌≡◌, true, ◌∷◌, ◌+◌, ◌≤◌, length};
ghost use Rattle.std.proofs.lemmas.List.Edits.{sets};
ghost use Rattle.fields.specs.declared.spelling.Spelling.{Spelling};
ghost use Rattle.fields.specs.Put.{written};
ghost use Rattle.lines.specs.Settings.{run_line, setting_fits, setting_line, share, who};
ghost use Rattle.lines.specs.Writing.{answer_of, buffer_of, write_answer, write_buffer};

use crate::kind::Kind;
use crate::numbers::LineNumbers;
use crate::settle::turn_of;
use crate::write::{Written, put_line};
use fields::text::{LINE_FEED, TAB};
use fields::{Spelling, put_at, put_part, width};
use message::Settings;
use units::Refusal;

// Whether there is a line k of these settings, which are in range.
#[tactic(auto, using(crate::proofs::Runs::setting_none, crate::proofs::Runs::setting_runs, crate::proofs::Runs::setting_some))]
fn is_setting(settings: Settings, k: u32) -> bool
    ensures { result ≡ setting_fits settings k }
{
    if !settings.in_range() {
        return false;
    }
    (1 <= k) & (k as usize <= 2 + settings.numbers.group.m)
}

// Puts a number after its tab.
fn put_field(buf: &mut [u8], at: usize, spelling: Spelling, n: u64) -> usize
    requires { at + (1 + length (written spelling n)) ≤ length buf.old }
    ensures { (result ≡ at + (1 + length (written spelling n))) × (buf.new ≡ sets buf.old at (9 ∷ written spelling n)) }
{
    buf[at] = TAB;
    put_at(buf, at + 1, spelling, n)
}

// Puts a certificate's bytes after their tab.
fn put_certificate(buf: &mut [u8], at: usize, certificate: &[u8]) -> usize
    requires { at + (1 + length certificate.now) ≤ length buf.old }
    ensures { (result ≡ at + (1 + length certificate.now)) × (buf.new ≡ sets buf.old at (9 ∷ certificate.now)) }
{
    buf[at] = TAB;
    put_part(buf, at + 1, certificate)
}

// The bytes of the fields of a line K, each with its tab.
fn run_width(run: usize, len: usize, factor: u32, weight: u32) -> usize
    requires { len ≤ 16 }
    ensures { (result ≡ (1 + length (written Spelling.Decimal run)) + (1 + len) + ((1 + length (written Spelling.Factor factor)) + (1 + length (written Spelling.Decimal weight)))) × (result ≤ 68) }
{
    let first = width(Spelling::Decimal, run as u64);
    let third = width(Spelling::Factor, u64::from(factor));
    let last = width(Spelling::Decimal, u64::from(weight));
    (1 + first) + (1 + len) + ((1 + third) + (1 + last))
}

// Puts the run and its certificate.
fn put_who(buf: &mut [u8], run: usize, certificate: &[u8]) -> usize
    requires { 1 + ((1 + length (written Spelling.Decimal run)) + (1 + length certificate.now)) ≤ length buf.old }
    ensures { (result ≡ 1 + length (who run certificate.now)) × (buf.new ≡ sets buf.old 1 (who run certificate.now)) }
{
    let at = put_field(buf, 1, Spelling::Decimal, run as u64);
    put_certificate(buf, at, certificate)
}

// Puts the factor and the weight.
fn put_share(buf: &mut [u8], at: usize, factor: u32, weight: u32) -> usize
    requires { at + ((1 + length (written Spelling.Factor factor)) + (1 + length (written Spelling.Decimal weight))) ≤ length buf.old }
    ensures { (result ≡ at + length (share factor weight)) × (buf.new ≡ sets buf.old at (share factor weight)) }
{
    let next = put_field(buf, at, Spelling::Factor, u64::from(factor));
    put_field(buf, next, Spelling::Decimal, u64::from(weight))
}

// Puts the line K of a run.
fn put_run(buf: &mut [u8], run: usize, certificate: &[u8], factor: u32, weight: u32) -> Written
    requires { length certificate.now ≤ 16 }
    ensures { (result ≡ answer_of (run_line run certificate.now factor weight) buf.old) × (buf.new ≡ buffer_of (run_line run certificate.now factor weight) buf.old) }
{
    let len = 2 + run_width(run, certificate.len(), factor, weight);
    if buf.len() < len {
        return Err(Refusal::Room);
    }
    buf[0] = b'K';
    let at = put_who(buf, run, certificate);
    let end = put_share(buf, at, factor, weight);
    buf[end] = LINE_FEED;
    Ok(len)
}

// Puts line k of settings in range.
#[tactic(auto, using(crate::proofs::Runs::certificate_within))]
fn put_setting(settings: Settings, k: u32, buf: &mut [u8]) -> Written
    requires { setting_fits settings k ≡ true }
    ensures { (result ≡ answer_of (setting_line settings k) buf.old) × (buf.new ≡ buffer_of (setting_line settings k) buf.old) }
{
    let numbers = settings.numbers;
    if k == 1 {
        let group = numbers.group;
        let sizes = LineNumbers::of(&[group.g as u64, group.m as u64]);
        return put_line(buf, Kind::Sizes, &sizes);
    }
    if k == 2 {
        let filter = LineNumbers::of(&[
            u64::from(numbers.q),
            u64::from(numbers.r),
            u64::from(numbers.p),
        ]);
        return put_line(buf, Kind::Filter, &filter);
    }
    let run = turn_of(k);
    let certificate = settings.certificates[run];
    put_run(
        buf,
        run,
        &certificate.bytes[..certificate.len],
        numbers.factors[run],
        numbers.weights[run],
    )
}

// Writes line k of the settings, from 1: 6 before 16, and nothing where either is given.
pub fn write_setting(settings: Settings, k: u32, buf: &mut [u8]) -> Written
    ensures { (result ≡ write_answer (setting_fits settings k) (setting_line settings k) buf.old) × (buf.new ≡ write_buffer (setting_fits settings k) (setting_line settings k) buf.old) }
{
    if !is_setting(settings, k) {
        return Err(Refusal::Range);
    }
    put_setting(settings, k, buf)
}

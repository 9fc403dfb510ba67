// Reads by `read_factor` every field of up to seven bytes that are 0 1 9 . 4 A a or a tab, at place 0 and behind another field, at the text's end and before a tab. It writes a line
// for each that is ever in form, with what it is read as each time, to be compared with a second computation (tests/factor/vectors.rs).
#![tactic(auto)]

ghost use Rattle.std.specs.Prelude.{◌+◌, ◌≤◌, length};

use fields::text::TAB;
use fields::{Fault, Field, read_factor};
use std::io;
use units::limits::{FACTOR_LOW, FACTOR_TOP};

// What the fields are made of.
const MADE_OF: [u8; 8] = [b'0', b'1', b'9', b'.', b'4', b'A', b'a', TAB];

// No bound but the spelling's own.
const WIDE: u64 = u64::MAX;

// A field's number and the place of the next, or its refusal.
fn tell_field(rt: &impl Print, read: Result<Field, Fault>) -> io::Result<()> {
    match read {
        Ok(Field { n, next }) => print!(rt; "\t{n} {next}"),
        Err(Fault::Form) => print!(rt; "\t5"),
        Err(Fault::Range) => print!(rt; "\t6")
    }
}

// The field at a place, in the widest range and in a station's.
fn tell_at(rt: &impl Print, text: &[u8], at: usize) -> io::Result<()> {
    tell_field(rt, read_factor(text, at, 0, WIDE))?;
    tell_field(
        rt,
        read_factor(text, at, u64::from(FACTOR_LOW), u64::from(FACTOR_TOP)),
    )
}

fn in_form(text: &[u8], at: usize) -> bool {
    !matches!(read_factor(text, at, 0, WIDE), Err(Fault::Form))
}

// A field's bytes, with _ for a tab.
fn say_field(rt: &impl Print, field: &[u8]) -> io::Result<()> {
    for b in field {
        let shown = if *b == TAB { b'_' } else { *b };
        rt.write_all(&[shown])?;
    }
    Ok(())
}

// The field of k bytes with a number, behind another and before a third.
fn text_of(number: u64, k: usize) -> [u8; 11]
    requires { k ≤ 7 }
{
    let mut text = [TAB; 11];
    text[0] = b'9';
    text[k + 3] = b'4';
    let mut rest = number;
    for b in &mut text[2..k + 2] {
        *b = MADE_OF[(rest % 8) as usize];
        rest /= 8;
    }
    text
}

// Whether a field is in form at any of its four places; where it is, a line on it.
fn show(
    rt: &impl Print,
    alone: &[u8],
    followed: &[u8],
    behind: &[u8],
    between: &[u8],
) -> io::Result<bool> {
    let first = in_form(alone, 0) || in_form(followed, 0);
    let second = in_form(behind, 2) || in_form(between, 2);
    if !(first || second) {
        return Ok(false);
    }
    say_field(rt, alone)?;
    tell_at(rt, alone, 0)?;
    tell_at(rt, followed, 0)?;
    tell_at(rt, behind, 2)?;
    tell_at(rt, between, 2)?;
    println!(rt; "")?;
    Ok(true)
}

// The same of a field of k bytes in its text.
fn show_in(rt: &impl Print, text: &[u8], k: usize) -> io::Result<bool>
    requires { k + 4 ≤ length text.now }
{
    show(
        rt,
        &text[2..k + 2],
        &text[2..k + 4],
        &text[0..k + 2],
        &text[0..k + 4],
    )
}

// All fields of k bytes, and how many of them were shown.
fn show_all(rt: &impl Print, k: usize) -> io::Result<()>
    requires { k ≤ 7 }
{
    let count = 1u64 << (3 * k);
    let mut shown: u64 = 0;
    for number in 0..count {
        let text = text_of(number, k);
        if show_in(rt, &text, k)? {
            shown += 1;
        }
    }
    println!(rt; "{k} bytes\t{count} fields\t{shown} shown")
}

// A factor's text from each of its places on, and from places past its end.
fn show_places(rt: &impl Print, text: &[u8]) -> io::Result<()> {
    for at in 0..9 {
        print!(rt; "{at}")?;
        tell_at(rt, text, at)?;
        println!(rt; "")?;
    }
    print!(rt; "far")?;
    tell_at(rt, text, usize::MAX - 5)?;
    tell_at(rt, text, usize::MAX)?;
    println!(rt; "")
}

fn main(rt: HostRuntime) -> io::Result<()> {
    for k in 0..8 {
        show_all(&rt, k)?;
    }
    show_places(&rt, b"1.0047")
}

// Reads cases of the store and writes what each is answered and what its buffer then holds, to be compared with a second program's (tests/store/vectors.rs).
// A case is a line `EEEEE DD MM BBB` (bytes of the export, bytes of the day, m, places of the buffer), the export, the day, and sixteen serials:
// two digits for the length, and sixteen bytes.
#![tactic(auto)]

ghost use Rattle.std.specs.Prelude.{◌+◌, ◌≤◌, ◌<◌, IfOk, length};

use fields::read_digits;
use message::Certificate;
use std::io;
use std::io::Read;
use store::stored::number as number_of;
use store::{Place, Refused, Serials, name_of, write_runs};

// The bytes of a case's first line, of a serial, and of all sixteen.
const HEAD: usize = 16;

const SERIAL: usize = 18;

const SERIALS: usize = 288;

// The number that digits at a place say, five at the most.
fn number(text: &[u8], at: usize, n: usize) -> usize
    ensures { result < 100000 }
{
    (read_digits(text, at, n).unwrap_or(0) % 100000) as usize
}

fn serial(text: &[u8], at: usize) -> Certificate
    requires { at + 18 ≤ length text.now }
{
    let name = name_of(&text[at + 2..at + SERIAL]);
    Certificate {
        len: number(text, at, 2),
        ..name
    }
}

fn serials(text: &[u8], at: usize, m: usize) -> Serials
    requires { at + 288 ≤ length text.now }
{
    Serials {
        m,
        each: std::array::from_fn(|i| serial(text, at + SERIAL * i)),
    }
}

fn tell_place(rt: &impl Print, place: Place) -> io::Result<()> {
    match place {
        Place::Nowhere => println!(rt; "nowhere"),
        Place::Line { line } => println!(rt; "line {line}"),
        Place::Day => println!(rt; "day"),
        Place::Count => println!(rt; "serials"),
        Place::Run { run } => println!(rt; "run {run}"),
    }
}

fn tell_answer(rt: &impl Print, answer: Result<usize, Refused>) -> io::Result<()> {
    let number = number_of(answer);
    match answer {
        Ok(len) => println!(rt; "{number} {len} nowhere"),
        Err(refused) => {
            print!(rt; "{number} 0 ")?;
            tell_place(rt, refused.place)
        }
    }
}

// Writes what is answered, and all that the buffer then holds.
fn tell_all(
    rt: &impl Print,
    export: &[u8],
    day: &[u8],
    given: Serials,
    buf: &mut [u8],
) -> io::Result<()> {
    tell_answer(rt, write_runs(export, day, given, buf))?;
    rt.write_all(buf)?;
    println!(rt; "")
}

// The case at a place: its export, its day and its serials start and end where these say.
fn judge(rt: &impl Print, text: &[u8], at: usize, day: usize, names: usize) -> io::Result<()>
    requires { (at + 16 ≤ day) × (day ≤ names) × (names + 288 ≤ length text.now) }
{
    let given = serials(text, names, number(text, at + 9, 2));
    let size = number(text, at + 12, 3) % 1000;
    let mut buf = [126u8; 1000];
    tell_all(
        rt,
        &text[at + HEAD..day],
        &text[day..names],
        given,
        &mut buf[..size],
    )
}

// Judges the case at a place; the answer is the place after it, or the end where it is not whole.
fn case_at(rt: &impl Print, text: &[u8], at: usize) -> io::Result<usize>
    requires { (at < length text.now) × (length text.now ≤ 65536) }
    ensures { IfOk result (λ next. (at < next) × (next ≤ length text.now)) }
{
    let day = at + HEAD + number(text, at, 5);
    let names = day + number(text, at + 6, 2);
    let end = names + SERIALS;
    if text.len() < end {
        return Ok(text.len());
    }
    judge(rt, text, at, day, names)?;
    Ok(end)
}

// All cases of a text.
fn judge_all(rt: &impl Print, text: &[u8]) -> io::Result<()>
    requires { length text.now ≤ 65536 }
{
    let mut at: usize = 0;
    // A while: it goes on by a case, whose bytes vary.
    while at < text.len() {
        at = case_at(rt, text, at)?;
    }
    Ok(())
}

// Reads until the bytes are full or the input ends, and says how many came.
// In two programs: they have no library in common that reads.
fn read_full(from: &mut impl Read, bytes: &mut [u8]) -> io::Result<usize>
    ensures { IfOk result (λ n. n ≤ length bytes.new) }
{
    let mut done = 0;
    // A while: it goes on by as many bytes as a read gives.
    while done < bytes.len() {
        let n = from.read(&mut bytes[done..])?;
        if n == 0 {
            break;
        }
        done += n;
    }
    Ok(done)
}

fn main(rt: HostRuntime) -> io::Result<()> {
    let mut block = [0u8; 65536];
    let have = read_full(&mut rt.stdin(), &mut block)?;
    judge_all(&rt, &block[..have])
}

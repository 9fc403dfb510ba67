// Reads a list of lines, good and bad, and writes what each is and how it is written back, to be compared with a second program's (tests/lines/vectors.rs).
// Before each line stand seven bytes: what it is for, m in two digits, its length in three digits, a line feed.
// It is for a group of g controllers, for the settings (S), to begin the settings anew (Z) or for input that ends within them (T);
// or it says what is handed over as a value: a number of X (X), or a place of the settings read last that is changed (W).
#![tactic(auto)]

ghost use Rattle.std.specs.Prelude.{◌≡◌, ◌%◌, ◌≤◌, IfOk, length};

use floats::bits::bits_of;
use lines::read::read;
use lines::setting::write_setting;
use lines::settle::{Settled, Settling, Wanted};
use lines::write::{Written, write, write_plain};
use message::{Certificate, Head, Message, Settings};
use std::io;
use std::io::Read;
use units::limits::RUNS;
use units::{Estimate, Group, Numbers, Refusal};

fn tell_refusal(rt: &impl Print, why: Refusal) -> io::Result<()> {
    print!(rt; "refused {}", why.number())?;
    if let Refusal::Settings { line, reason } = why {
        print!(rt; " {line} {reason}")?;
    }
    println!(rt; "")
}

// The kinds that name a sender.
fn tell_sent(rt: &impl Print, head: Head) -> io::Result<()> {
    match head {
        Head::Query {
            sender,
            label,
            mask,
        } => println!(rt; "query {sender} {} {mask}", label.0),
        Head::Reply {
            sender,
            label,
            mask,
        } => println!(rt; "reply {sender} {} {mask}", label.0),
        Head::Advert { sender, state } => println!(rt; "advert {sender} {}", state.0),
        Head::Update { sender, state } => println!(rt; "update {sender} {}", state.0),
        Head::Vote {
            sender,
            label,
            digest: d,
        } => println!(rt; "vote {sender} {} {} {}", label.0, d.mask, d.state.0),
        Head::Setpoints {
            sender,
            label,
            digest: d,
        } => println!(rt; "setpoints {sender} {} {} {}", label.0, d.mask, d.state.0),
        _ => println!(rt; "")
    }
}

// The other kinds.
fn tell_head(rt: &impl Print, head: Head) -> io::Result<()> {
    match head {
        Head::Reading { label, run, raw } => println!(rt; "reading {} {run} {raw}", label.0),
        Head::Due { label } => println!(rt; "due {}", label.0),
        Head::CollectingEnds { label } => println!(rt; "collecting ends {}", label.0),
        Head::VotingEnds { label } => println!(rt; "voting ends {}", label.0),
        Head::Floor { label } => println!(rt; "floor {}", label.0),
        Head::Start { own, floor } => println!(rt; "start {own} {}", floor.0),
        Head::Refused { number } => println!(rt; "refused {number}"),
        _ => tell_sent(rt, head),
    }
}

// What stands at each of sixteen runs, used or blank.
fn tell_runs(
    rt: &impl Print,
    readings: [u32; 16],
    estimates: [Estimate; 16],
    targets: [f64; 16],
) -> io::Result<()> {
    for ((raw, e), target) in readings.iter().zip(&estimates).zip(&targets) {
        let x = bits_of(e.x);
        let variance = bits_of(e.variance);
        let target = bits_of(*target);
        print!(rt; " {raw} {x:x} {variance:x} {target:x}")?;
    }
    println!(rt; "")
}

// A text that is put into a buffer, with the byte past it; then what a buffer that is one byte shorter leads to.
fn tell_put<F: Fn(&mut [u8]) -> Written>(rt: &impl Print, put: F) -> io::Result<()>
    requires { F.IsAlwaysCallable put }
{
    let mut out = [b'#'; 602];
    match put(&mut out) {
        Ok(len) => {
            if len < 602 {
                rt.write_all(&out[..len + 1])?;
                println!(rt; "")?;
                tell_room(rt, put(&mut out[..len.saturating_sub(1)]))?;
            }
            Ok(())
        }
        Err(why) => tell_refusal(rt, why),
    }
}

fn tell_room(rt: &impl Print, written: Written) -> io::Result<()> {
    match written {
        Ok(len) => println!(rt; "written {len}"),
        Err(why) => tell_refusal(rt, why),
    }
}

fn tell_message(rt: &impl Print, message: Message, group: Group) -> io::Result<()> {
    tell_put(rt, |out| write(message, group, out))
}

// The same from the head alone.
fn tell_plain(rt: &impl Print, head: Head, group: Group) -> io::Result<()> {
    tell_put(rt, |out| write_plain(head, group, out))
}

// A message X of a number, which may be none that X can have: the writer is to refuse it.
fn tell_x(rt: &impl Print, number: u32, m: usize) -> io::Result<()> {
    let head = Head::Refused { number };
    let group = Group { g: 3, m };
    tell_message(rt, Message::plain(head), group)?;
    tell_plain(rt, head, group)
}

fn tell_line(rt: &impl Print, line: &[u8], group: Group) -> io::Result<()> {
    let found = read(line, group);
    let message = found.message;
    tell_head(rt, message.head)?;
    if found.verdict.is_ok() {
        tell_runs(rt, message.readings, message.estimates, message.targets)?;
    }
    tell_message(rt, message, group)
}

fn tell_run(rt: &impl Print, c: &Certificate, factor: u32, weight: u32) -> io::Result<()> {
    print!(rt; " ")?;
    if let Some(bytes) = c.bytes.get(..c.len) {
        rt.write_all(bytes)?;
    }
    print!(rt; " {factor} {weight}")
}

fn tell_settings(rt: &impl Print, settings: Settings) -> io::Result<()> {
    let numbers = settings.numbers;
    let group = numbers.group;
    print!(rt;
        "settings {} {} {} {} {}",
        group.g, group.m, numbers.q, numbers.r, numbers.p
    )?;
    let places = numbers.factors.iter().zip(&numbers.weights);
    for (c, (factor, weight)) in settings.certificates.iter().zip(places) {
        tell_run(rt, c, *factor, *weight)?;
    }
    println!(rt; "")
}

// Line k of the settings.
fn tell_setting(rt: &impl Print, settings: Settings, k: u32) -> io::Result<()> {
    tell_put(rt, |out| write_setting(settings, k, out))
}

// All lines that settings can have, one at either end that none has, and the last number that can be asked for.
fn tell_lines(rt: &impl Print, settings: Settings) -> io::Result<()> {
    for k in 0..20 {
        tell_setting(rt, settings, k)?;
    }
    tell_setting(rt, settings, u32::MAX)
}

fn tell_settled(rt: &impl Print, settled: Settled) -> io::Result<()> {
    match settled.answer {
        Ok(Wanted::More) => println!(rt; "more"),
        Ok(Wanted::Whole) => {
            let settings = settled.next.settings();
            tell_settings(rt, settings)?;
            tell_lines(rt, settings)
        }
        Err(why) => tell_refusal(rt, why),
    }
}

// The last four bits of a byte stand for its digit.
fn digit(b: u8) -> usize
    ensures { (result ≡ b % 16 % 10) × (result ≤ 9) }
{
    (b % 16 % 10) as usize
}

// A decimal number; of three digits at the most it is below a thousand.
fn number(digits: &[u8]) -> u32
    ensures { length digits.now ≤ 3 → result ≤ 999 }
{
    let n = digits
        .iter()
        .fold(0u64, |n, b| n % 4294967296 * 10 + digit(*b) as u64);
    (n % 4294967296) as u32
}

// The numbers of settings with one of them changed, at run i where there is one for each run.
fn with_number(numbers: Numbers, place: u8, i: usize, n: u32) -> Numbers {
    let mut next = numbers;
    match place {
        b'g' => next.group.g = n as usize,
        b'm' => next.group.m = n as usize,
        b'q' => next.q = n,
        b'r' => next.r = n,
        b'p' => next.p = n,
        b'f' => next.factors[i % RUNS] = n,
        _ => next.weights[i % RUNS] = n,
    }
    next
}

// A certificate with its length or one of its bytes changed.
fn with_byte(certificate: Certificate, place: u8, j: usize, n: u32) -> Certificate {
    let mut next = certificate;
    match place {
        b'l' => next.len = n as usize,
        _ => next.bytes[j % RUNS] = (n % 256) as u8,
    }
    next
}

// Settings with one place changed.
fn changed(settings: Settings, place: u8, i: usize, j: usize, n: u32) -> Settings {
    let mut next = settings;
    if place == b'l' || place == b'b' {
        let run = i % RUNS;
        next.certificates[run] = with_byte(next.certificates[run], place, j, n);
    } else {
        next.numbers = with_number(settings.numbers, place, i, n);
    }
    next
}

// A line that names a place by its letter, a run and a byte in two digits each, and the number to stand there.
fn tell_changed(rt: &impl Print, settings: Settings, line: &[u8]) -> io::Result<()> {
    if line.len() < 6 {
        return Ok(());
    }
    let i = number(&line[1..3]) as usize;
    let j = number(&line[3..5]) as usize;
    tell_lines(rt, changed(settings, line[0], i, j, number(&line[5..])))
}

// What a line of the list is for; the settings after it. `what` is the byte that the list has for it.
fn take(
    rt: &impl Print,
    what: u8,
    m: usize,
    line: &[u8],
    settling: Settling,
) -> io::Result<Settling> {
    match what {
        b'Z' => Ok(Settling::start()),
        b'S' => {
            let settled = settling.take(line);
            tell_settled(rt, settled)?;
            Ok(settled.next)
        }
        b'T' => {
            tell_refusal(rt, settling.missing())?;
            Ok(settling)
        }
        b'X' => {
            tell_x(rt, number(line), m)?;
            Ok(settling)
        }
        b'W' => {
            tell_changed(rt, settling.settings(), line)?;
            Ok(settling)
        }
        _ => {
            let g = digit(what);
            tell_line(rt, line, Group { g, m })?;
            Ok(settling)
        }
    }
}

// Reads until the bytes are full or the input ends, and says how many came.
// In two programs: they have no library in common that reads.
fn read_full(input: &mut impl Read, bytes: &mut [u8]) -> io::Result<usize>
    ensures { IfOk result (λ n. n ≤ length bytes.new) }
{
    let mut done = 0;
    // A while: a read gives a piece of any length.
    while done < bytes.len() {
        let n = input.read(&mut bytes[done..])?;
        if n == 0 {
            break;
        }
        done += n;
    }
    Ok(done)
}

// The next line of the list, of a length.
fn take_next(
    rt: &impl Print,
    input: &mut impl Read,
    what: u8,
    m: usize,
    len: usize,
    space: &mut [u8],
    settling: Settling,
) -> io::Result<Settling> {
    if space.len() < len {
        return Ok(settling);
    }
    read_full(input, &mut space[..len])?;
    take(rt, what, m, &space[..len], settling)
}

fn main(rt: HostRuntime) -> io::Result<()> {
    let mut input = rt.stdin();
    let mut head = [0u8; 7];
    let mut space = [0u8; 1000];
    let mut settling = Settling::start();
    for _ in 0..1000000 {
        if read_full(&mut input, &mut head)? < 7 {
            return Ok(());
        }
        let m = number(&head[1..3]) as usize;
        let len = number(&head[3..6]) as usize;
        settling = take_next(&rt, &mut input, head[0], m, len, &mut space, settling)?;
    }
    Ok(())
}

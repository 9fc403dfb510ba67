// Computes rounds on drawn inputs and writes the bits of each x, P and target, to be compared with a second program's (tests/filter/vectors.rs).
// 144 stations, each with its own settings and start; 16 rounds each, the state carried on from round to round. Then a round in range and the same with
// one clause of "in range" broken at a time; then 200 rounds of one run, in some of which (total × weight) / weight exceeds the total.
#![tactic(auto)]

ghost use Rattle.std.specs.Prelude.{◌≡◌, ◌<◌, ◌≤◌};
ghost use Rattle.filter.specs.Checked.{left};

use filter::checked::compute_checked;
use filter::{Computed, Round, Uncomputed};
use floats::bits::{VARIANCE_BITS, X_BITS, bits_of, float_of};
use std::{array, io};
use units::limits::{FACTOR_LOW, FACTOR_TOP, FIRST_TOP, NOISE_TOP, RAW_TOP, RUNS, WEIGHT_TOP};
use units::{Estimate, Group, Numbers, RoundLabel, StateLabel};

// A turn of xorshift64.
fn turn(s: u64) -> u64 {
    let a = s ^ (s << 13);
    let b = a ^ (a >> 7);
    b ^ (b << 17)
}

// Draw k of round n.
fn draw(n: u32, k: u32) -> u64 {
    let place = u64::from(n % 65536) * 128 + u64::from(k % 128) + 1;
    turn(turn(turn(place * 0x9e_3779_b97f)))
}

// d cut to 0..=most.
fn cut(d: u64, most: u32) -> u32
    ensures { result ≤ most }
{
    (d % (u64::from(most) + 1)) as u32
}

// A number of low..=top: an end, one near the lower end, or any.
fn number(d: u64, low: u32, top: u32) -> u32 {
    if top <= low {
        return low;
    }
    let wide = top - low;
    match d % 8 {
        0 => low,
        1 => top,
        2 | 3 => low + cut(d / 8, wide.min(99)),
        _ => low + cut(d / 8, wide),
    }
}

// The bits of a float of +0 to a limit: an end, any bits, or one of the sixteen powers of two below the limit.
fn magnitude(d: u64, limit: u64) -> u64 {
    if limit < 0x100_0000_0000_0000 {
        return 0;
    }
    match d % 8 {
        0 => 0,
        1 => limit,
        2 => d / 8 % limit,
        _ => limit - d / 8 % 0x100_0000_0000_0000,
    }
}

// A place's factor and weight, which is 0 where the place is no run.
fn place(run: bool, d: u64, low: u32, top: u32) -> u32 {
    if run { number(d, low, top) } else { 0 }
}

// The settings of a station; those of every 64th have a q that is out of range.
fn settings(station: u32) -> Numbers {
    let n = station % 4096 * 16;
    let m = 1 + (station % 16) as usize;
    Numbers {
        group: Group { g: 3, m },
        q: if station % 64 == 63 {
            0
        } else {
            number(draw(n, 80), 1, NOISE_TOP)
        },
        r: number(draw(n, 81), 1, NOISE_TOP),
        p: number(draw(n, 82), 1, FIRST_TOP),
        factors: array::from_fn(|i| place(i < m, draw(n, i as u32), FACTOR_LOW, FACTOR_TOP)),
        weights: array::from_fn(|i| place(i < m, draw(n, i as u32 + 16), 1, WEIGHT_TOP)),
    }
}

// What stands where no run is.
const BLANK: Estimate = Estimate {
    x: 0.0,
    variance: 0.0,
};

// A run's estimate at the station's start: document 01's, or any in range; nothing where the place is no run.
fn first(run: bool, plain: bool, p: u32, dx: u64, dv: u64) -> Estimate {
    if !run {
        return BLANK;
    }
    if plain {
        return Estimate {
            variance: f64::from(p),
            ..BLANK
        };
    }
    Estimate {
        x: float_of(magnitude(dx, X_BITS)),
        variance: float_of(magnitude(dv, VARIANCE_BITS)),
    }
}

fn start(station: u32, m: usize, p: u32) -> [Estimate; 16] {
    let n = station % 4096 * 16;
    array::from_fn(|i| {
        let k = i as u32;
        first(i < m, station % 4 == 0, p, draw(n, k + 48), draw(n, k + 64))
    })
}

// The state's label of a round.
fn base_of(d: u64) -> u32 {
    if d % 16 == 0 {
        0
    } else {
        (d / 16 % 2147483648) as u32
    }
}

// The round's label: all labels above the base, the base itself, far above it, or at most four above it.
fn label_of(d: u64) -> u32 {
    let base = (d / 16 % 2147483648) as u32;
    let far = (d / 34359738368 % 536870912) as u32;
    match d % 16 {
        0 => u32::MAX,
        1 => base,
        2 | 3 => base + 1 + far,
        _ => base + 1 + far % 4,
    }
}

// The mask of all m runs.
fn full_of(m: usize) -> u32
    ensures { result < 65536 }
{
    if m < 16 {
        (65535u32 >> (16 - m)) % 65536
    } else {
        65535
    }
}

// The chosen mask: none, a bit at m, all, one, or any.
fn chosen_of(d: u64, m: usize) -> u32 {
    let full = full_of(m);
    let any = ((d / 64 % 65536) as u32) & full;
    match d % 64 {
        0 => 0,
        1 => full + 1,
        2..=15 => full,
        16..=23 => (1u32 << (d / 64 % 16)) & full,
        _ if any == 0 => full,
        _ => any,
    }
}

// A reading; one in 256 is out of range.
fn reading(run: bool, d: u64) -> u32 {
    let odd = d / 1048576 % 256 == 0;
    if run {
        if odd {
            RAW_TOP + 1
        } else {
            number(d, 0, RAW_TOP)
        }
    } else if odd {
        1
    } else {
        0
    }
}

fn readings_of(n: u32, m: usize) -> [u32; 16] {
    array::from_fn(|i| reading(i < m, draw(n, (i as u32) + 32)))
}

// A round's verdict by its number, and where it was taken each run's x, P and target.
fn show(rt: &impl Print, m: usize, answer: Result<Computed, Uncomputed>) -> io::Result<()> {
    let computed = match answer {
        Ok(computed) => computed,
        Err(uncomputed) => return println!(rt; "{}", uncomputed.why.number()),
    };
    println!(rt; "0")?;
    for (e, target) in computed.state.iter().zip(&computed.targets).take(m) {
        let x = bits_of(e.x);
        let variance = bits_of(e.variance);
        let target = bits_of(*target);
        println!(rt; "{x:016X}\t{variance:016X}\t{target:016X}")?;
    }
    Ok(())
}

// What a round leaves: what it computed, or what stands where it was refused.
fn left_by(answer: Result<Computed, Uncomputed>) -> Computed
    ensures { result ≡ left answer }
{
    match answer {
        Ok(computed) => computed,
        Err(uncomputed) => uncomputed.left,
    }
}

// Sixteen rounds of a station.
fn play(rt: &impl Print, station: u32) -> io::Result<()> {
    let numbers = settings(station);
    let m = numbers.group.m;
    let mut state = start(station, m, numbers.p);
    for i in 0..16 {
        let n = station % 4096 * 16 + i;
        let d = draw(n, 83);
        let c = compute_checked(Round {
            label: RoundLabel(label_of(d)),
            base: StateLabel(base_of(d)),
            state,
            numbers,
            chosen: chosen_of(draw(n, 84), m),
            readings: readings_of(n, m),
        });
        state = left_by(c).state;
        show(rt, m, c)?;
    }
    Ok(())
}

// What is changed in a round in range, so that one clause of "in range" is broken: a number, or what stands at a run.
#[derive(Clone, Copy)]
enum Odd {
    Nothing,
    Controllers(usize),
    Runs(usize),
    Q(u32),
    R(u32),
    P(u32),
    Factor(usize, u32),
    Weight(usize, u32),
    X(usize, f64),
    Variance(usize, f64),
    Base(u32),
    Label(u32),
    Chosen(u32),
    Reading(usize, u32),
}

// A round in range and 35 that are not: floats are the first past a limit, no number, -0, infinite, or stand past the runs.
const ODD: [Odd; 36] = [
    Odd::Nothing,
    Odd::Controllers(0),
    Odd::Runs(17),
    Odd::Controllers(8),
    Odd::Q(0),
    Odd::Q(NOISE_TOP + 1),
    Odd::R(0),
    Odd::R(NOISE_TOP + 1),
    Odd::P(0),
    Odd::P(FIRST_TOP + 1),
    Odd::Factor(0, FACTOR_LOW - 1),
    Odd::Factor(2, FACTOR_TOP + 1),
    Odd::Weight(0, 0),
    Odd::Weight(2, WEIGHT_TOP + 1),
    Odd::Factor(3, 10000),
    Odd::Weight(15, 1),
    Odd::X(0, 1100000.0000000002),
    Odd::Variance(2, 1000000000.0000001),
    Odd::X(2, f64::NAN),
    Odd::Variance(0, f64::NAN),
    Odd::X(0, -0.0),
    Odd::Variance(2, -0.0),
    Odd::X(2, f64::INFINITY),
    Odd::Variance(0, f64::INFINITY),
    Odd::X(3, 5e-324),
    Odd::Variance(3, 1.0),
    Odd::X(15, -0.0),
    Odd::Variance(15, f64::NAN),
    Odd::Base(5),
    Odd::Label(3),
    Odd::Chosen(0),
    Odd::Chosen(8),
    Odd::Chosen(65536),
    Odd::Reading(0, RAW_TOP + 1),
    Odd::Reading(3, 1),
    Odd::Reading(15, 1),
];

// Readings of runs 0 and 2.
fn two_readings() -> [u32; 16] {
    let mut readings = [0u32; 16];
    readings[0] = 200000;
    readings[2] = RAW_TOP;
    readings
}

fn changed(round: Round, odd: Odd) -> Round {
    let mut next = round;
    match odd {
        Odd::Nothing => {}
        Odd::Controllers(g) => next.numbers.group.g = g,
        Odd::Runs(m) => next.numbers.group.m = m,
        Odd::Q(n) => next.numbers.q = n,
        Odd::R(n) => next.numbers.r = n,
        Odd::P(n) => next.numbers.p = n,
        Odd::Factor(run, n) => next.numbers.factors[run % RUNS] = n,
        Odd::Weight(run, n) => next.numbers.weights[run % RUNS] = n,
        Odd::X(run, x) => next.state[run % RUNS].x = x,
        Odd::Variance(run, variance) => next.state[run % RUNS].variance = variance,
        Odd::Base(n) => next.base = StateLabel(n),
        Odd::Label(n) => next.label = RoundLabel(n),
        Odd::Chosen(mask) => next.chosen = mask,
        Odd::Reading(run, raw) => next.readings[run % RUNS] = raw,
    }
    next
}

// A round in range, or with one thing in it changed; seventeen runs are those of a station of sixteen.
fn broken(rt: &impl Print, odd: Odd) -> io::Result<()> {
    let station = if matches!(odd, Odd::Runs(_)) { 15 } else { 2 };
    let numbers = settings(station);
    let m = numbers.group.m;
    let round = Round {
        label: RoundLabel(5),
        base: StateLabel(4),
        state: start(station, m, numbers.p),
        numbers,
        chosen: 5,
        readings: two_readings(),
    };
    show(rt, m, compute_checked(changed(round, odd)))
}

// One run alone.
fn alone(rt: &impl Print, j: u32) -> io::Result<()> {
    let mut numbers = settings(0);
    numbers.weights[0] = 670 + j % 100;
    let mut state = start(0, 1, numbers.p);
    state[0] = Estimate {
        x: float_of(magnitude(draw(j, 90), X_BITS)),
        variance: 1.0,
    };
    let mut readings = [0u32; 16];
    readings[0] = cut(draw(j, 91), RAW_TOP);
    show(
        rt,
        1,
        compute_checked(Round {
            label: RoundLabel(2),
            base: StateLabel(1),
            state,
            numbers,
            chosen: 1,
            readings,
        }),
    )
}

fn main(rt: HostRuntime) -> io::Result<()> {
    for station in 0..144 {
        play(&rt, station)?;
    }
    for odd in ODD {
        broken(&rt, odd)?;
    }
    for j in 0..200 {
        alone(&rt, j)?;
    }
    Ok(())
}

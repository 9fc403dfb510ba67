// The settings, read line by line.
ghost use Rattle.std.specs.Prelude.{◌≡◌, [], ◌∷◌, ◌-◌, ◌≤◌, ◌<◌, drop, length, take};
ghost use Rattle.fields.specs.Text.{first_field, later_fields};
ghost use Rattle.lines.specs.Settling.{any_group, standing_at, certificate_of, expecting, is_kind, missing, settle_line, settle_plain, settle_run, settle_text, settled, settling_start, stopped, with_filter, run_with, turn_of, with_sizes};
ghost use Rattle.lines.specs.Table.{limit_of};
ghost use Rattle.lines.specs.declared.kind.Kind.{Kind};

use crate::counted::Counted;
use crate::kind::Kind;
use crate::table::{limit_of, runs_of};
use crate::typed::narrow;
use crate::values::read_values;
use fields::text::ends_at;
use fields::{Limit, certificate_end, read_at, scan};
use message::{Certificate, Settings};
use units::limits::LINE;
use units::{Group, Numbers, Refusal};

// What is read so far, and the number of the next line, from 1. Nobody outside puts one together: it comes from a start and lines taken.
#[derive(Clone, Copy)]
pub struct Settling {
    pub(crate) line: u32,
    pub(crate) settings: Settings,
}

// Whether more lines are wanted.
#[derive(Clone, Copy, PartialEq, Eq)]
pub enum Wanted {
    More,
    Whole,
}

// How the settings stand after a line.
pub type Standing = Result<Wanted, Refusal>;

// What a line led to: what is read now, and whether more lines are wanted.
// The settings stand with a refusal too, as they were (`stopped`).
#[derive(Clone, Copy)]
pub struct Settled {
    pub next: Settling,
    pub answer: Standing,
}

fn standing_at(line: u32, m: usize) -> Standing
    ensures { result ≡ standing_at line m }
{
    if 2 <= line && (line - 2) as usize == m {
        Ok(Wanted::Whole)
    } else {
        Ok(Wanted::More)
    }
}

// Whether a text's first field is the letter of a kind.
fn is_kind(text: &[u8], kind: Kind) -> bool
    ensures { result ≡ is_kind kind (first_field text.now) }
{
    if ends_at(text, 0) {
        return false;
    }
    if ends_at(text, 1) {
        return text[0] == kind.letter();
    }
    false
}

fn any_group() -> Group
    ensures { result ≡ any_group }
{
    Group { g: 1, m: 1 }
}

// The run whose turn is at a line.
pub(crate) fn turn_of(line: u32) -> usize
    ensures { result ≡ line - 3 }
{
    line.saturating_sub(3) as usize
}

// What the number at a place of K is judged by, in a run's turn.
fn limit_at(place: usize, turn: usize) -> Limit
    ensures { result ≡ limit_of Kind.Run place any_group turn }
{
    limit_of(Kind::Run, place, any_group(), turn as u64)
}

fn with_sizes(settings: Settings, g: u64, m: u64) -> Settings
    ensures { result ≡ with_sizes settings (g ∷ m ∷ []) }
{
    Settings {
        numbers: Numbers {
            group: Group {
                g: g as usize,
                m: m as usize,
            },
            ..settings.numbers
        },
        ..settings
    }
}

fn with_filter(settings: Settings, q: u64, r: u64, p: u64) -> Settings
    ensures { result ≡ with_filter settings (q ∷ r ∷ p ∷ []) }
{
    Settings {
        numbers: Numbers {
            q: narrow(q),
            r: narrow(r),
            p: narrow(p),
            ..settings.numbers
        },
        ..settings
    }
}

fn with_run(
    mut settings: Settings,
    run: usize,
    certificate: Certificate,
    factor: u64,
    weight: u64,
) -> Settings
    requires { run < 16 }
    ensures { result ≡ run_with settings run certificate factor weight }
{
    settings.numbers.factors[run] = narrow(factor);
    settings.numbers.weights[run] = narrow(weight);
    settings.certificates[run] = certificate;
    settings
}

// The bytes of a text from a place to another, as a certificate.
fn certificate_of(text: &[u8], from: usize, to: usize) -> Certificate
    requires { (from ≤ to) × (to ≤ length text.now) × (to - from ≤ 16) }
    ensures { result ≡ certificate_of (take (to - from) (drop from text.now)) }
{
    let len = to - from;
    let mut bytes = [0; 16];
    bytes[..len].copy_from_slice(&text[from..to]);
    Certificate { len, bytes }
}

impl Settling {
    // Nothing is read, and line 1 is next.
    #[tactic(auto, unfolding(crate::specs::Settling::settling_start))]
    pub fn start() -> Settling
        ensures { result ≡ settling_start }
    {
        Settling {
            line: 1,
            settings: Settings {
                numbers: Numbers {
                    group: Group { g: 0, m: 0 },
                    q: 0,
                    r: 0,
                    p: 0,
                    factors: [0; 16],
                    weights: [0; 16],
                },
                certificates: [Certificate {
                    len: 0,
                    bytes: [0; 16],
                }; 16],
            },
        }
    }

    // The number of the next line.
    pub fn line(self) -> u32
        ensures { result ≡ self.line }
    {
        self.line
    }

    // The settings as they are read so far.
    pub fn settings(self) -> Settings
        ensures { result ≡ self.settings }
    {
        self.settings
    }

    // Their numbers.
    pub fn numbers(self) -> Numbers
        ensures { result ≡ self.settings.numbers }
    {
        self.settings.numbers
    }

    // The refusal of an input that ends where this line is still missing.
    pub fn missing(self) -> Refusal
        ensures { result ≡ missing self }
    {
        Refusal::Settings {
            line: self.line,
            reason: Refusal::Unended.number(),
        }
    }

    fn stop(self, why: Refusal) -> Settled
        ensures { result ≡ stopped self why }
    {
        Settled {
            next: self,
            answer: Err(Refusal::Settings {
                line: self.line,
                reason: why.number(),
            }),
        }
    }

    // What a line led to that gave settings, or a refusal.
    fn led(self, taken: Result<Settings, Refusal>) -> Settled
        requires { turn_of self < 16 }
        ensures { result ≡ settled self taken }
    {
        match taken {
            Ok(settings) => Settled {
                next: Settling {
                    line: self.line + 1,
                    settings,
                },
                answer: standing_at(self.line, settings.numbers.group.m),
            },
            Err(why) => self.stop(why),
        }
    }

    // G, the line with the number of controllers and of runs.
    fn take_sizes(self, line: Counted<'_>) -> Result<Settings, Refusal>
        ensures { settled self result ≡ expecting self Kind.Sizes line.entry.text.now (settle_plain self Kind.Sizes (with_sizes self.settings) (later_fields line.entry.text.now)) }
    {
        if !is_kind(line.text, Kind::Sizes) {
            return Err(Refusal::Kind);
        }
        let mut v = [0u64; 34];
        read_values(line, Kind::Sizes, any_group(), &mut v)?;
        Ok(with_sizes(self.settings, v[0], v[1]))
    }

    // N, the line with the filter's numbers.
    fn take_filter(self, line: Counted<'_>) -> Result<Settings, Refusal>
        ensures { settled self result ≡ expecting self Kind.Filter line.entry.text.now (settle_plain self Kind.Filter (with_filter self.settings) (later_fields line.entry.text.now)) }
    {
        if !is_kind(line.text, Kind::Filter) {
            return Err(Refusal::Kind);
        }
        let mut v = [0u64; 34];
        read_values(line, Kind::Filter, any_group(), &mut v)?;
        Ok(with_filter(self.settings, v[0], v[1], v[2]))
    }

    // K, the line of the run whose turn it is.
    fn take_run(self, line: Counted<'_>) -> Result<Settings, Refusal>
        requires { turn_of self < 16 }
        ensures { settled self result ≡ expecting self Kind.Run line.entry.text.now (settle_run self (later_fields line.entry.text.now)) }
    {
        if !is_kind(line.text, Kind::Run) {
            return Err(Refusal::Kind);
        }
        if line.fields != 4 {
            return Err(Refusal::Fields);
        }
        let text = line.text;
        let turn = turn_of(self.line);
        let run = read_at(text, 2, limit_at(0, turn))?;
        let end = certificate_end(text, run.next).ok_or(Refusal::Form)?;
        let factor = read_at(text, end + 1, limit_at(1, turn))?;
        let weight = read_at(text, factor.next, limit_at(2, turn))?;
        let certificate = certificate_of(text, run.next, end);
        Ok(with_run(self.settings, turn, certificate, factor.n, weight.n))
    }

    fn take_text(self, line: Counted<'_>) -> Settled
        ensures { result ≡ settle_text self line.entry.text.now }
    {
        match self.line {
            1 => self.led(self.take_sizes(line)),
            2 => self.led(self.take_filter(line)),
            k if runs_of(self.settings.numbers.group.m) <= turn_of(k) => self.stop(Refusal::Kind),
            _ => self.led(self.take_run(line)),
        }
    }

    // Takes the next line of the settings.
    pub fn take(self, line: &[u8]) -> Settled
        ensures { result ≡ settle_line self line.now }
    {
        if LINE < line.len() {
            return self.stop(Refusal::Long);
        }
        let seen = scan(line);
        if seen.feed + 1 != line.len() {
            return self.stop(Refusal::Unended);
        }
        self.take_text(Counted::of(line, seen))
    }
}

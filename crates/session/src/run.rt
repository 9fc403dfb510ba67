// Lines one after another: while a controller runs, its state stays where it is from one to the next.
ghost use Rattle.std.specs.Prelude.{◌≡◌, length};
ghost use Rattle.lines.specs.Writing.{answer_of, buffer_of};
ghost use Rattle.session.specs.Feeding.{done_length, put_text};
ghost use Rattle.session.specs.Serving.{AddedBy, plan_line, ran, run_of};

use crate::answer::{length_of, put_answer};
use controller::Controller;
use lines::Line;
use lines::read::{First, read_first};
use message::{Head, Message};
use plan::planned::refusal;
use plan::{Change, Plan};
use units::limits::LINE;
use units::{Numbers, Verdict};

// Two lines' room, enough for whatever a line leads to.
pub(crate) const ROOM: usize = 2 * LINE;

// The controller after the lines that were taken, how many bytes they have, and how many were written.
#[derive(Clone, Copy)]
pub struct Ran {
    pub(crate) next: Controller,
    pub(crate) took: usize,
    pub(crate) wrote: usize,
}

// The reading that a line adds, where it leads to that and to nothing else.
fn added_by(c: Controller, head: Head, verdict: Verdict) -> Change
    ensures { AddedBy c head verdict result }
{
    let Ok(()) = verdict else {
        return Change::More;
    };
    let Head::Reading { label, run, raw } = head else {
        return Change::More;
    };
    c.reading_change(label, run, raw)
}

// What a line leads to: a refused one to its X and to nothing else.
fn plan_line(c: Controller, numbers: Numbers, message: Message, verdict: Verdict) -> Plan
    ensures { result ≡ plan_line numbers c message message.head verdict }
{
    match verdict {
        Ok(()) => c.plan(numbers, message),
        Err(why) => refusal(why),
    }
}

// Writes what a plan sends and says, after the step.
fn put_plan(c: Controller, numbers: Numbers, plan: Plan, out: &mut [u8]) -> usize
    ensures { (result ≡ done_length (answer_of (put_text numbers c plan.second plan.verdict plan.first) out.old)) × (out.new ≡ buffer_of (put_text numbers c plan.second plan.verdict plan.first) out.old) }
{
    length_of(put_answer(c, numbers, plan.first, plan.second, plan.verdict, out))
}

// Serves a running controller's lines as long as the next one is whole and there is room for two lines.
// The common reading is put in its place; whatever else comes is planned, and changes the controller where it does.
pub(crate) fn run_lines(c: Controller, numbers: Numbers, input: &[u8], out: &mut [u8]) -> Ran
    ensures { (result ≡ ran (run_of numbers c input.now (length out.old))) × (out.new ≡ buffer_of (run_of numbers c input.now (length out.old)).text out.old) }
{
    let mut next = c;
    let mut at: usize = 0;
    let mut filled: usize = 0;
    // A while: lines have any length, and the last may not be whole.
    while ROOM <= out.len() - filled {
        let First { line, feed } = read_first(&input[at..], numbers.group);
        let Line { verdict, message } = line;
        if feed == input.len() - at {
            break;
        }
        let change = added_by(next, message.head, verdict);
        if let Change::Reading { run, raw } = change {
            next = next.add(run, raw);
        } else {
            let plan = plan_line(next, numbers, message, verdict);
            match plan.effect.change() {
                Change::Nothing => {}
                _ => next = next.apply(numbers, message, plan.effect),
            }
            filled += put_plan(next, numbers, plan, &mut out[filled..]);
        }
        at += feed + 1;
    }
    Ran {
        next,
        took: at,
        wrote: filled,
    }
}

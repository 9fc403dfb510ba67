// The numbers of a message's line, in the order of the line.
ghost use Rattle.std.specs.Prelude.{◌≡◌, [], ◌∷◌, ◌++◌, ◌+◌, ◌*◌, ◌<◌, ◌≤◌, length, true};
ghost use Rattle.message.specs.Message.{message_fits};
ghost use Rattle.lines.specs.Lists.{joined};
ghost use Rattle.lines.specs.Values.{floats_of, head_values, kind_is, raw_of, target_of, numbers_of};

use crate::kind::Kind;
use floats::bits::bits_of;
use message::{Head, Message};
use std::marker::Model;
use units::mask::has;
use units::{Estimate, Group};

// The numbers of a line, 34 at the most: the first n places count.
#[derive(Clone, Copy)]
pub struct LineNumbers {
    n: usize,
    v: [u64; 34],
}

// Clauses see the numbers, and the places after them, which make the fields whole again: a `Copy` needs them.
impl Model for LineNumbers {
    ghost use Rattle.std.specs.Prelude.{◌≡◌, ℕ, List, ◌++◌, ◌≤◌, length, take, drop};
    ghost use Rattle.std.proofs.Common.{arith, take-append-drop, length-take-le};

    ghost Value = { List ℕ × List ℕ };

    ghost view = { λ s. (take s.n s.v, drop s.n s.v) };

    ghost invariant = { λ s. (s.n ≤ 34) × (length s.v ≡ 34) };

    ghost inverse = { λ p. record { n = length p.0; v = p.0 ++ p.1 } };

    ghost inverse_ok = { λ s h i. record {
      n = length-take-le s.n s.v (omega (arith, h.0, h.1)) i;
      v = take-append-drop s.n s.v i;
    } };
}

impl LineNumbers {
    // The numbers of a slice.
    pub(crate) fn of(numbers: &[u64]) -> LineNumbers
        requires { length numbers.now ≤ 34 }
        ensures { result.0 ≡ numbers.now }
    {
        let n = numbers.len();
        let mut v = [0; 34];
        v[..n].copy_from_slice(numbers);
        LineNumbers { n, v }
    }

    // Adds a number.
    fn push(&mut self, number: u64)
        requires { length self.old.0 < 34 }
        ensures { self.new.0 ≡ self.old.0 ++ (number ∷ []) }
    {
        self.v[self.n] = number;
        self.n += 1;
    }

    pub(crate) fn as_slice(&self) -> &[u64]
        ensures { (result.now ≡ self.now.0) × (length self.now.0 ≤ 34) }
    {
        &self.v[..self.n]
    }

    // Adds the readings of a mask's runs, lowest run first.
    fn push_readings(&mut self, mask: u32, readings: &[u32; 16])
        requires { length self.old.0 ≤ 4 }
        ensures { self.new.0 ≡ self.old.0 ++ joined (raw_of mask readings.now) 16 }
    {
        if mask == 0 {
            return;
        }
        for (i, raw) in readings.iter().enumerate() {
            if has(mask, i) {
                self.push(u64::from(*raw));
            }
        }
    }

    // Adds the floats of m runs.
    fn push_estimates(&mut self, m: usize, estimates: &[Estimate; 16])
        requires { (length self.old.0 + 2 * m ≤ 34) × (m ≤ 16) }
        ensures { self.new.0 ≡ self.old.0 ++ joined (floats_of estimates.now) m }
    {
        for e in &estimates[..m] {
            self.push(bits_of(e.x));
            self.push(bits_of(e.variance));
        }
    }

    // Adds the targets of m runs.
    fn push_targets(&mut self, m: usize, targets: &[f64; 16])
        requires { (length self.old.0 + m ≤ 34) × (m ≤ 16) }
        ensures { self.new.0 ≡ self.old.0 ++ joined (target_of targets.now) m }
    {
        for target in &targets[..m] {
            self.push(bits_of(*target));
        }
    }
}

#[tactic(auto, unfolding(crate::specs::Values::kind_is))]
pub(crate) fn kind_is(head: Head) -> Kind
    ensures { result ≡ kind_is head }
{
    match head {
        Head::Reading { .. } => Kind::Reading,
        Head::Query { .. } => Kind::Query,
        Head::Reply { .. } => Kind::Reply,
        Head::Advert { .. } => Kind::Advert,
        Head::Update { .. } => Kind::Update,
        Head::Vote { .. } => Kind::Vote,
        Head::Setpoints { .. } => Kind::Setpoints,
        Head::Due { .. } => Kind::Due,
        Head::CollectingEnds { .. } => Kind::CollectingEnds,
        Head::VotingEnds { .. } => Kind::VotingEnds,
        Head::Floor { .. } => Kind::Floor,
        Head::Start { .. } => Kind::Start,
        Head::Refused { .. } => Kind::Refused,
    }
}

// The numbers of a head.
#[tactic(auto, unfolding(crate::specs::Values::head_values))]
pub(crate) fn head_numbers(head: Head) -> LineNumbers
    ensures { result.0 ≡ head_values head }
{
    match head {
        Head::Reading { label, run, raw } => LineNumbers::of(&[
            u64::from(label.0),
            run as u64,
            u64::from(raw),
        ]),
        Head::Query {
            sender,
            label,
            mask,
        }
        | Head::Reply {
            sender,
            label,
            mask,
        } => LineNumbers::of(&[sender as u64, u64::from(label.0), u64::from(mask)]),
        Head::Advert { sender, state } | Head::Update { sender, state } => LineNumbers::of(&[
            sender as u64,
            u64::from(state.0),
        ]),
        Head::Vote {
            sender,
            label,
            digest,
        }
        | Head::Setpoints {
            sender,
            label,
            digest,
        } => LineNumbers::of(&[
            sender as u64,
            u64::from(label.0),
            u64::from(digest.state.0),
            u64::from(digest.mask),
        ]),
        Head::Due { label }
        | Head::CollectingEnds { label }
        | Head::VotingEnds { label }
        | Head::Floor { label } => LineNumbers::of(&[u64::from(label.0)]),
        Head::Start { own, floor } => LineNumbers::of(&[own as u64, u64::from(floor.0)]),
        Head::Refused { number } => LineNumbers::of(&[u64::from(number)]),
    }
}

// All numbers of a message in range.
pub(crate) fn numbers_of(message: Message, group: Group) -> LineNumbers
    requires { message_fits group message ≡ true }
    ensures { result.0 ≡ numbers_of group message }
{
    let carried = message.head.carries(group);
    let mut numbers = head_numbers(message.head);
    numbers.push_readings(carried.readings, &message.readings);
    numbers.push_estimates(carried.estimates, &message.estimates);
    numbers.push_targets(carried.targets, &message.targets);
    numbers
}

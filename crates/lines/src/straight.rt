// The numbers of a line read straight on, its fields not counted first; a line that is not as it should be is read again with care.
ghost use Rattle.std.specs.Prelude.{◌≡◌, ℕ, ◌≤◌, ◌<◌, get_or, length, take};
ghost use Rattle.fields.specs.declared.spelling.Spelling.{Spelling};
ghost use Rattle.lines.specs.Straight.{AfterTab, Trod};
ghost use Rattle.lines.specs.declared.kind.Kind.{Kind};
ghost use Rattle.lines.specs.Reading.{limit_after};
ghost use Rattle.lines.specs.Table.{count_of};

use crate::kind::Kind;
use crate::table::{count_of, limit_of};
use crate::values::label_in;
use fields::text::{TAB, is_at};
use fields::{Fault, Field, Limit, read_decimal_here, read_here};
use units::Group;

// Reads the numbers from place `from` up to `to`, each after its tab, and gives the place after them; nothing where one is not as it should be.
// (input, kind, group, v): what is read, by what table, and where to; no two functions of another file share all.
fn go_on(
    input: &[u8],
    kind: Kind,
    group: Group,
    v: &mut [u64; 34],
    from: usize,
    to: usize,
    start: usize,
) -> Option<usize>
    requires { (from ≤ to) × (to ≤ 34) × Trod kind group input.now v.old from start }
    ensures { ((at : ℕ) → result ≡ Some at → Trod kind group input.now v.new to at) × ((i : ℕ) → i < from → get_or v.new i 0 ≡ get_or v.old i 0) }
{
    let mut at = start;
    for k in from..to {
        if !is_at(input, at, TAB) {
            return None;
        }
        let limit = limit_of(kind, k, group, label_in(v, k));
        let field = read_here(input, at + 1, limit).ok()?;
        v[k] = field.n;
        at = field.next;
    }
    Some(at)
}

// What the number at a place is judged by, once those before it are read.
fn limit_at(kind: Kind, k: usize, group: Group, v: &[u64; 34]) -> Limit
    requires { (k ≤ 34) × (length v.now ≡ 34) }
    ensures { result ≡ limit_after kind group (take k v.now) }
{
    limit_of(kind, k, group, label_in(v, k))
}

// The decimal number that stands after a tab.
#[tactic(auto, using(crate::proofs::Straights::after_none, crate::proofs::Straights::after_some, crate::proofs::Straights::at_inside))]
fn after_tab(input: &[u8], at: usize, limit: Limit) -> Result<Field, Fault>
    requires { limit.spelling ≡ Spelling.Decimal }
    ensures { AfterTab input.now at limit result }
{
    if !is_at(input, at, TAB) {
        return Err(Fault::Form);
    }
    read_decimal_here(input, at + 1, limit.low, limit.high)
}

// The three numbers of M, the most common line, one after the other.
pub(crate) fn reading_in(input: &[u8], group: Group, v: &mut [u64; 34]) -> Option<usize>
    requires { Trod Kind.Reading group input.now v.old 0 1 }
    ensures { (at : ℕ) → result ≡ Some at → Trod Kind.Reading group input.now v.new 3 at }
{
    let label = after_tab(input, 1, limit_at(Kind::Reading, 0, group, v)).ok()?;
    v[0] = label.n;
    let run = after_tab(input, label.next, limit_at(Kind::Reading, 1, group, v)).ok()?;
    v[1] = run.n;
    let raw = after_tab(input, run.next, limit_at(Kind::Reading, 2, group, v)).ok()?;
    v[2] = raw.n;
    Some(raw.next)
}

// All numbers of a line of a kind; R's are counted once its mask is read.
pub(crate) fn numbers_in(input: &[u8], kind: Kind, group: Group, v: &mut [u64; 34]) -> Option<usize>
    requires { Trod kind group input.now v.old 0 1 }
    ensures { (at : ℕ) → result ≡ Some at → Trod kind group input.now v.new (count_of kind group (get_or v.new 2 0)) at }
{
    let heads = count_of(kind, group, 0);
    let at = go_on(input, kind, group, v, 0, heads, 1)?;
    let total = count_of(kind, group, v[2]);
    go_on(input, kind, group, v, heads, total, at)
}

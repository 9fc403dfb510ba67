// The numbers of a line, read field by field with a cursor.
ghost use Rattle.std.specs.Prelude.{◌≡◌, ◌≤◌, length, get_or, take};
ghost use Rattle.fields.specs.Text.{later_fields};
ghost use Rattle.lines.specs.Reading.{enough, read_rest, read_values, values};
ghost use Rattle.lines.specs.Table.{count_of};
ghost use Rattle.lines.specs.Walk.{Filled, Here, Rest, Walked};

use crate::counted::Counted;
use crate::kind::Kind;
use crate::table::{count_of, limit_of};
use fields::read_at;
use units::{Group, Refusal, Verdict};

// The label among the numbers before a place, where it is read already.
pub(crate) fn label_in(v: &[u64; 34], place: usize) -> u64
    ensures { result ≡ get_or (take place v.now) 1 0 }
{
    if 1 < place { v[1] } else { 0 }
}

// Reads the numbers from place `from` up to `to`, and gives the place where the next field starts.
fn read_on(
    text: &[u8],
    kind: Kind,
    group: Group,
    v: &mut [u64; 34],
    from: usize,
    to: usize,
    start: usize,
) -> Result<usize, Refusal>
    requires { (from ≤ to) × (to ≤ 34) × (to ≤ length (later_fields text.now)) × Here text.now start from × Rest v.old from × (length v.old ≡ 34) }
    ensures { Walked kind group text.now v.old v.new from to result }
{
    let mut at = start;
    for k in from..to {
        let limit = limit_of(kind, k, group, label_in(v, k));
        let field = read_at(text, at, limit)?;
        v[k] = field.n;
        at = field.next;
    }
    Ok(at)
}

// Whether there are so many fields that a line of a kind can be judged.
#[tactic(auto, unfolding(crate::specs::Reading::enough, units::specs::Pick::pick))]
fn is_enough(kind: Kind, group: Group, fields: usize) -> bool
    ensures { result ≡ enough kind group fields }
{
    let heads = count_of(kind, group, 0);
    match kind {
        Kind::Reply => heads <= fields,
        _ => fields == heads,
    }
}

// The fields are counted once R's mask is known, and those that are left are read.
fn read_rest(
    line: Counted<'_>,
    kind: Kind,
    group: Group,
    v: &mut [u64; 34],
    heads: usize,
    start: usize,
) -> Verdict
    requires { (heads ≡ count_of kind group 0) × (heads ≤ line.fields) × Here line.text.now start heads × Rest v.old heads × (length v.old ≡ 34) }
    ensures { Filled kind group line.entry.text.now v.new (read_rest kind group (later_fields line.entry.text.now) (values (take heads v.old))) result }
{
    let total = count_of(kind, group, v[2]);
    if line.fields != total {
        return Err(Refusal::Fields);
    }
    read_on(line.text, kind, group, v, heads, total, start)?;
    Ok(())
}

// Reads all numbers of a line of a kind.
pub(crate) fn read_values(line: Counted<'_>, kind: Kind, group: Group, v: &mut [u64; 34]) -> Verdict
    requires { Here line.text.now 2 0 × Rest v.old 0 × (length v.old ≡ 34) }
    ensures { Filled kind group line.entry.text.now v.new (read_values kind group (later_fields line.entry.text.now)) result }
{
    if !is_enough(kind, group, line.fields) {
        return Err(Refusal::Fields);
    }
    let heads = count_of(kind, group, 0);
    let at = read_on(line.text, kind, group, v, 0, heads, 2)?;
    read_rest(line, kind, group, v, heads, at)
}

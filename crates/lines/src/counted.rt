// A line's text with its fields counted.
ghost use Rattle.std.specs.Prelude.{◌≡◌, length, take};
ghost use Rattle.fields.specs.Text.{later_fields, scanned};

use fields::Scan;

// The fields that are counted are those after the first.
#[derive(Clone, Copy)]
pub(crate) struct Counted<'a> {
    pub(crate) text: &'a [u8],
    pub(crate) fields: usize,
    ghost counted: { fields ≡ length (later_fields text.now) },
}

impl<'a> Counted<'a> {
    // The text of a line that is scanned already.
    pub(crate) fn of(line: &'a [u8], seen: Scan) -> Counted<'a>
        requires { seen ≡ scanned line.now }
        ensures { result.text.now ≡ take seen.feed line.now }
    {
        Counted {
            text: &line[..seen.feed],
            fields: seen.tabs,
        }
    }
}

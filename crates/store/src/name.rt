// Names of meters and certificates: 1 to 16 bytes 0x21..0x7E.
ghost use Rattle.std.specs.Prelude.{◌≡◌};
ghost use Rattle.lines.specs.Settling.{certificate_of, no_one};
ghost use Rattle.store.specs.Row.{name_at};

use fields::certificate_end;
use message::Certificate;
use units::limits::CERTIFICATE;

// The name that a field is, and where the next field starts.
#[derive(Clone, Copy)]
pub struct Named {
    pub name: Certificate,
    pub next: usize,
}

pub(crate) fn no_name() -> Certificate
    ensures { result ≡ no_one }
{
    Certificate {
        len: 0,
        bytes: [0u8; 16],
    }
}

// A text as a name: its length, however long, and its first sixteen bytes. Whether it is fit is seen from that.
pub fn name_of(text: &[u8]) -> Certificate
    ensures { result ≡ certificate_of text.now }
{
    let len = text.len();
    let n = len.min(CERTIFICATE);
    let mut bytes = [0u8; 16];
    bytes[..n].copy_from_slice(&text[..n]);
    Certificate { len, bytes }
}

// The name at a place, where the field there is one.
#[tactic(auto, using(crate::proofs::Names::name_within, crate::proofs::Names::name_there, crate::proofs::Names::name_none))]
pub(crate) fn name_at(text: &[u8], at: usize) -> Option<Named>
    ensures { result ≡ name_at text.now at }
{
    let end = certificate_end(text, at)?;
    Some(Named {
        name: name_of(&text[at..end]),
        next: end + 1,
    })
}

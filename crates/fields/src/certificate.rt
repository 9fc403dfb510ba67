// Certificates: 1 to 16 bytes 0x21..0x7E.
ghost use Rattle.std.specs.Prelude.{◌≡◌, length, take_while};
ghost use Rattle.units.specs.Bytes.{visible};
ghost use Rattle.fields.specs.Certificate.{certificate_at};

use crate::text::ends_at;
use units::bytes::is_visible;
use units::limits::CERTIFICATE;

// How many visible bytes a text starts with.
fn shown(text: &[u8]) -> usize
    ensures { result ≡ length (take_while visible text.now) }
{
    text.iter().take_while(|b| is_visible(**b)).count()
}

// Where the certificate at a place ends; none where there is no certificate.
pub fn certificate_end(text: &[u8], at: usize) -> Option<usize>
    ensures { result ≡ certificate_at text.now at }
{
    let n = shown(text.get(at..)?);
    let end = at + n;
    ((1 <= n) & (n <= CERTIFICATE) & ends_at(text, end)).then_some(end)
}

// A meter's certificate: 1 to 16 bytes that can be seen.
ghost use Rattle.std.specs.Prelude.{◌≡◌};
ghost use Rattle.message.specs.Settings.{byte_place, certificate_fits, len_fits};

use units::bytes::is_visible;
use units::limits::CERTIFICATE;

// The first `len` bytes count, the others are 0. A place that is no run has len 0.
// A length beside its bytes, in fixed memory and by value: `certificate_fits` judges one that is out of range.
#[derive(Clone, Copy, PartialEq, Eq)]
pub struct Certificate {
    pub len: usize,
    pub bytes: [u8; 16],
}

fn len_in_range(run: bool, len: usize) -> bool
    ensures { result ≡ len_fits run len }
{
    if run {
        (1..=CERTIFICATE).contains(&len)
    } else {
        len == 0
    }
}

fn byte_in_range(here: bool, b: u8) -> bool
    ensures { result ≡ byte_place here b }
{
    if here { is_visible(b) } else { b == 0 }
}

impl Certificate {
    // Whether it is a run's certificate, or nothing where there is no run.
    pub fn in_range(self, run: bool) -> bool
        ensures { result ≡ certificate_fits run self }
    {
        let mut places = self.bytes.iter().enumerate();
        len_in_range(run, self.len) && places.all(|(i, b)| byte_in_range(i < self.len, *b))
    }
}

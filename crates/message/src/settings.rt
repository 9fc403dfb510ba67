// The settings of a station as a value.
ghost use Rattle.std.specs.Prelude.{◌≡◌};
ghost use Rattle.message.specs.Settings.{settings_fit};

use crate::certificate::Certificate;
use units::Numbers;

// The numbers that G, N and K give, and each run's certificate.
#[derive(Clone, Copy)]
pub struct Settings {
    pub numbers: Numbers,
    pub certificates: [Certificate; 16],
}

impl Settings {
    pub fn in_range(self) -> bool
        ensures { result ≡ settings_fit self }
    {
        let m = self.numbers.group.m;
        let mut places = self.certificates.iter().enumerate();
        self.numbers.in_range() && places.all(|(i, certificate)| certificate.in_range(i < m))
    }
}

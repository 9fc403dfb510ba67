// Bytes of a certificate.
ghost use Rattle.std.specs.Prelude.{◌≡◌};
ghost use Rattle.units.specs.Bytes.{visible};

// Whether a byte can be seen: 0x21 to 0x7E.
pub fn is_visible(b: u8) -> bool
    ensures { result ≡ visible b }
{
    (0x21..=0x7e).contains(&b)
}

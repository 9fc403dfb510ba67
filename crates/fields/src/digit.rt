// Digits, and the numbers that they say.
ghost use Rattle.std.specs.Prelude.{◌≡◌, ◌+◌, ◌*◌, ◌^◌, ◌≤◌, ◌<◌, drop, length, take};
ghost use Rattle.std.proofs.lemmas.List.Edits.{sets};
ghost use Rattle.fields.specs.Digits.{char_of, digit_of, digits_at, fixed, fixed_in};

// The value of a decimal or upper-case hex digit, 16 of any other byte; a number and no Option by `digit_of`, of which `paper_refused` names the 16.
#[tactic(auto, unfolding(crate::specs::Digits::digit_of, crate::specs::Digits::pick))]
pub(crate) fn digit(b: u8) -> u64
    ensures { result ≡ digit_of b }
{
    match b {
        b'0'..=b'9' => u64::from(b - b'0'),
        b'A'..=b'F' => u64::from(b - b'A') + 10,
        _ => 16,
    }
}

// The byte of a digit.
#[tactic(auto, unfolding(crate::specs::Digits::char_of, crate::specs::Digits::pick))]
pub(crate) fn byte_of(d: u64) -> u8
    requires { d < 16 }
    ensures { result ≡ char_of d }
{
    if d < 10 {
        b'0' + d as u8
    } else {
        b'A' - 10 + d as u8
    }
}

// The number that the k bytes from a place on say as digits to a base, after digits that say `from`.
pub(crate) fn digits_at<const BASE: u64>(text: &[u8], at: usize, k: usize, from: u64) -> Option<u64>
    requires { (0 < k) × (BASE ≤ 16) × ((from + 1) * 16 ^ k ≤ 2 ^ 64) }
    ensures { result ≡ fixed_in BASE k from (take k (drop at text.now)) }
{
    let digits = text.get(at..)?.get(..k)?;
    let mut n = from;
    for b in digits {
        let d = digit(*b);
        if BASE <= d {
            return None;
        }
        n = n * BASE + d;
    }
    Some(n)
}

// The number that exactly n decimal digits at a place say, 1 to 16 of them, whatever comes after.
#[tactic(auto, using(crate::proofs::Reading::hex_room), unfolding(crate::specs::Digits::digits_at, crate::specs::Digits::pick))]
pub fn read_digits(text: &[u8], at: usize, n: usize) -> Option<u64>
    ensures { result ≡ digits_at text.now at n }
{
    if !(1..=16).contains(&n) {
        return None;
    }
    digits_at::<10>(text, at, n, 0)
}

// Puts the last k digits of a number to a base, from the last to the first.
pub(crate) fn put_fixed<const BASE: u64>(buf: &mut [u8], at: usize, k: usize, n: u64) -> usize
    requires base { (0 < BASE) × (BASE ≤ 16) }
    requires room { at + k ≤ length buf.old }
    ensures { (result ≡ at + k) × (buf.new ≡ sets buf.old at (fixed BASE k n)) }
{
    let mut left = n;
    for i in (0..k).rev() {
        buf[at + i] = byte_of(left % BASE);
        left = left / BASE;
    }
    at + k
}

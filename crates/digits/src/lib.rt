// Hexadecimal digits of numbers of two words, and their characters.
#![tactic(auto)]

ghost use Rattle.std.specs.Prelude.{◌≡◌, ◌++◌, ◌+◌, ◌/◌, ◌%◌, ◌<◌, ◌≤◌, pos, length, drop};
ghost use Rattle.words.specs.Words.{joined};
ghost use Rattle.digits.specs.Digits.{unit_at, settled, hex_digit, is_digit, low_digits};

use words::Wide;

// Hexadecimal digit i of x, the highest being digit 0.
#[tactic(auto, using(crate::proofs::TopDigits::digit_high, crate::proofs::TopDigits::digit_low))]
pub fn digit_at(x: Wide, i: u64) -> u64
    requires { i < 32 }
    ensures { result ≡ joined x.hi x.lo / unit_at (i + 1) % 16 }
{
    if i < 16 {
        (x.hi >> (60 - 4 * i)) % 16
    } else {
        (x.lo >> (124 - 4 * i)) % 16
    }
}

// How many of the highest digits two numbers share.
#[tactic(auto, using(crate::proofs::TopDigits::share_next, crate::proofs::TopDigits::share_stops, crate::proofs::TopDigits::shared_is))]
pub fn shared_digits(a: Wide, b: Wide) -> u64
    ensures { result ≡ settled (pos (joined a.hi a.lo)) (pos (joined b.hi b.lo)) }
{
    for d in 0..32 {
        if digit_at(a, d) != digit_at(b, d) {
            return d;
        }
    }
    32
}

// The character of a digit.
#[tactic(auto, unfolding(crate::specs::Digits::hex_digit))]
pub fn hex_digit(v: u64) -> u8
    requires { v < 16 }
    ensures { result ≡ hex_digit v }
{
    if v < 10 {
        b'0' + v as u8
    } else {
        b'A' + (v - 10) as u8
    }
}

// Whether a character is that of a digit.
#[tactic(auto, unfolding(crate::specs::Digits::is_digit))]
pub fn is_digit(c: u8) -> bool
    ensures { result ≡ is_digit c }
{
    matches!(c, b'0'..=b'9' | b'A'..=b'F')
}

// The d highest digits of x, as characters, over the first d bytes.
pub fn put_digits(out: &mut [u8], x: Wide, d: usize)
    requires { (d ≤ 32) × (d ≤ length out.old) }
    ensures { out.new ≡ low_digits d (pos (joined x.hi x.lo / unit_at d)) ++ drop d out.old }
{
    for (i, byte) in out[..d].iter_mut().enumerate() {
        *byte = hex_digit(digit_at(x, i as u64));
    }
}

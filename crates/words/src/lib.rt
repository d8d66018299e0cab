// Arithmetic of one and of two words, and little-endian numbers in bytes.
#![tactic(auto)]

ghost use Rattle.std.specs.Prelude.{◌≡◌, ◌+◌, ◌*◌, ◌/◌, ◌%◌, ◌^◌, ◌≤◌, ◌++◌, length, take, drop, replicate, ◌==◌, nat_lt};
ghost use Rattle.words.specs.Words.{joined};
ghost use Rattle.words.specs.Bytes.{bytes_of, field};

// A number of two words. The upper one is the first field, so that the order of the fields is that of the numbers.
#[derive(Clone, Copy, PartialEq, Eq, PartialOrd, Ord)]
pub struct Wide {
    pub hi: u64,
    pub lo: u64,
}

impl Wide {
    pub const ZERO: Wide = Wide { hi: 0, lo: 0 };
}

// A number of one word, with the upper one 0.
impl From<u64> for Wide {
    ghost from_gives = { λ word x. joined x.hi x.lo ≡ word };

    #[tactic(auto, unfolding(crate::specs::Words::joined))]
    fn from(word: u64) -> Wide {
        Wide { hi: 0, lo: word }
    }
}

// The upper word of a * b: the products of halves, column by column with their carries.
// The compiler makes one multiplication of this ladder. It stands in the loop of the power, of which tests/sources.awk reads every function:
// the kit's `carrying_mul` has no source there. The edit cross_product_twice is of these columns.
#[tactic(auto, using(crate::proofs::Halves::halves))]
pub fn mul_high(a: u64, b: u64) -> u64
    ensures { result ≡ a * b / 2 ^ 64 }
{
    let a0 = a % 0x1_0000_0000;
    let a1 = a / 0x1_0000_0000;
    let b0 = b % 0x1_0000_0000;
    let b1 = b / 0x1_0000_0000;
    let w0 = a0 * b0;
    let t = a1 * b0 + w0 / 0x1_0000_0000;
    let w1 = t % 0x1_0000_0000 + a0 * b1;
    a1 * b1 + t / 0x1_0000_0000 + w1 / 0x1_0000_0000
}

// a * b, modulo 2^64, in the loop of the power as well. In the upper half only the lower halves of the cross products are left.
// This is one multiplication too, and no second one where `mul_high` has the same operands.
#[tactic(auto, using(crate::proofs::Halves::halves))]
pub fn wrapping_mul(a: u64, b: u64) -> u64
    ensures { result ≡ a * b % 2 ^ 64 }
{
    let a0 = a % 0x1_0000_0000;
    let a1 = a / 0x1_0000_0000;
    let b0 = b % 0x1_0000_0000;
    let b1 = b / 0x1_0000_0000;
    let w0 = a0 * b0;
    let c = w0 / 0x1_0000_0000 + (a1 * b0) % 0x1_0000_0000 + (a0 * b1) % 0x1_0000_0000;
    (c % 0x1_0000_0000) * 0x1_0000_0000 + w0 % 0x1_0000_0000
}

// a * b, in two words.
#[tactic(auto, unfolding(crate::specs::Words::joined))]
pub fn mul(a: u64, b: u64) -> Wide
    ensures { joined result.hi result.lo ≡ a * b }
{
    Wide {
        hi: mul_high(a, b),
        lo: wrapping_mul(a, b),
    }
}

// a - b, modulo 2^64: the number that b added to wraps back to a. Where a is below b, 2^64 - b is added, else b is
// subtracted, each times the comparison as a number: no branch depends on a and b, as one does in the source of the kit's own, which the
// loop of the power may therefore not call. The compiler makes one subtraction of it.
pub fn wrapping_sub(a: u64, b: u64) -> u64
    ensures { (result + b) % 2 ^ 64 ≡ a }
{
    let below = (a < b) as u64;
    a + below * (u64::MAX - b + below) - (1 - below) * b
}

// a + b, modulo 2^128. The lower word wrapped if it came out below a summand.
#[tactic(auto, unfolding(crate::specs::Words::joined))]
pub fn add(a: Wide, b: Wide) -> Wide
    ensures { joined result.hi result.lo ≡ (joined a.hi a.lo + joined b.hi b.lo) % 2 ^ 128 }
{
    let lo = a.lo.wrapping_add(b.lo);
    let carry = (lo < a.lo) as u64;
    let hi = a.hi.wrapping_add(b.hi);
    Wide {
        hi: hi.wrapping_add(carry),
        lo,
    }
}

// a - b, modulo 2^128: the number that b added to wraps back to a.
#[tactic(auto, unfolding(crate::specs::Words::joined))]
pub fn sub(a: Wide, b: Wide) -> Wide
    ensures { (joined result.hi result.lo + joined b.hi b.lo) % 2 ^ 128 ≡ joined a.hi a.lo }
{
    let lo = a.lo.wrapping_sub(b.lo);
    let borrow = (a.lo < b.lo) as u64;
    let hi = a.hi.wrapping_sub(b.hi);
    Wide {
        hi: hi.wrapping_sub(borrow),
        lo,
    }
}

// Whether a is below b: what the derived order of the two words says of their number.
#[tactic(auto, unfolding(crate::specs::Words::joined))]
pub fn is_less(a: Wide, b: Wide) -> bool
    ensures { result ≡ nat_lt (joined a.hi a.lo) (joined b.hi b.lo) }
{
    a < b
}

// Whether a and b are equal, of their numbers as well.
#[tactic(auto, unfolding(crate::specs::Words::joined))]
pub fn is_equal(a: Wide, b: Wide) -> bool
    ensures { result ≡ (joined a.hi a.lo == joined b.hi b.lo) }
{
    a == b
}

// Writes the lowest `width` bytes of x, from `at` on. They may be more than the 8 of `to_le_bytes`: the others are 0.
#[tactic(auto, using(crate::proofs::Loops::lower, crate::proofs::Loops::written, crate::proofs::Loops::wrote))]
pub fn put(s: &mut [u8], at: usize, width: usize, x: u64)
    requires { at + width ≤ length s.old }
    ensures { s.new ≡ take at s.old ++ bytes_of width x ++ drop (at + width) s.old }
{
    let mut rest = x;
    for byte in s[at..at + width].iter_mut() {
        *byte = (rest % 256) as u8;
        rest /= 256;
    }
}

// The number in `width` bytes from `at` on, read from the top.
#[tactic(auto, using(crate::proofs::Loops::turn, crate::proofs::Loops::fits, crate::proofs::Loops::begun, crate::proofs::Loops::ended))]
pub fn get(s: &[u8], at: usize, width: usize) -> u64
    requires { (at + width ≤ length s.now) × (width ≤ 8) }
    ensures { result ≡ field s.now at width }
{
    let mut x: u64 = 0;
    for byte in s[at..at + width].iter().rev() {
        x = x * 256 + u64::from(*byte);
    }
    x
}

// Writes the 16 bytes of x, from `at` on.
pub fn put_wide(s: &mut [u8], at: usize, x: Wide)
    requires { at + 16 ≤ length s.old }
    ensures { s.new ≡ take at s.old ++ bytes_of 16 (joined x.hi x.lo) ++ drop (at + 16) s.old }
{
    put(s, at, 8, x.lo);
    put(s, at + 8, 8, x.hi);
}

// The number in the 16 bytes from `at` on.
pub fn get_wide(s: &[u8], at: usize) -> Wide
    requires { at + 16 ≤ length s.now }
    ensures { joined result.hi result.lo ≡ field s.now at 16 }
{
    Wide {
        hi: get(s, at + 8, 8),
        lo: get(s, at, 8),
    }
}

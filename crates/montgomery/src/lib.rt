// Arithmetic modulo an odd n by Montgomery's method: the whole part of 2^e / n, modulo 2^128.
// Algorithms 3, 4, 5 and 7 of Takahashi's paper, each in a function of its own.
#![tactic(auto)]

ghost use Rattle.std.specs.Prelude.{◌≡◌, ℕ, ◌+◌, ◌-◌, ◌*◌, ◌/◌, ◌%◌, ◌^◌, ◌<◌, ◌≤◌, min};
ghost use Rattle.algebra.specs.Bits.{bit_length};
ghost use Rattle.words.specs.Words.{joined};
ghost use Rattle.montgomery.specs.Modulus.{montgomery};
ghost use Rattle.montgomery.specs.Standing.{Standing, PowerOf, QuotientOf};

pub mod counted;
pub mod modulus;

use crate::counted::Counted;
use crate::modulus::Modulus;
use words::Wide;

// A plain residue: a number below the modulus.
#[derive(Clone, Copy)]
pub struct Residue(pub u64);

// A number below the modulus n that stands for the one that it is 2^64 times, modulo n.
#[derive(Clone, Copy)]
pub struct MontgomeryResidue(pub u64);

// A quotient modulo 2^128, and how many squarings it took.
#[derive(Clone, Copy)]
pub struct Quotient {
    pub value: Wide,
    pub squarings: u64,
}

impl Quotient {
    // The quotient 0, which takes no squaring.
    pub const ZERO: Quotient = Quotient {
        value: Wide::ZERO,
        squarings: 0,
    };
}

// One step of Newton's iteration for the inverse of n modulo 2^64: x * (2 - n * x).
pub fn refine(n: u64, x: u64) -> u64
    ensures { (result + x * (n * x)) % 2 ^ 64 ≡ 2 * x % 2 ^ 64 }
{
    let y = words::wrapping_mul(n, x);
    words::wrapping_mul(x, 2u64.wrapping_sub(y))
}

// Algorithm 4: the inverse of n modulo 2^64. (3n) xor 2 is right to 5 bits, and each step doubles that.
pub fn inverse(n: u64) -> u64
    requires { n % 2 ≡ 1 }
    ensures { n * result % 2 ^ 64 ≡ 1 }
{
    let x0 = words::wrapping_mul(3, n) ^ 2;
    let x1 = refine(n, x0);
    let x2 = refine(n, x1);
    let x3 = refine(n, x2);
    refine(n, x3)
}

// The smaller of y and z, where z is the larger exactly if its top bit is set, as it is in a difference that wrapped.
// So that bit is the comparison as a number, and picks one of the two with no branch.
pub fn smaller(y: u64, z: u64) -> u64
    requires { (z < 2 ^ 63 → z ≤ y) × (2 ^ 63 ≤ z → y ≤ z) }
    ensures { result ≡ min y z }
{
    let wrapped = z >> 63;
    words::wrapping_sub(z, wrapped * words::wrapping_sub(z, y))
}

// Algorithm 3 with both factors x. As mu is - 1 / n, the lower words of x * x and q * n add up to 0 or to 2^64:
// they carry 1, except where both are 0. The upper words add up to less than 2 * n.
pub fn square(x: MontgomeryResidue, m: Modulus) -> MontgomeryResidue
    requires { x.0 < m.n }
    ensures { (result.0 < m.n) × (result.0 * 2 ^ 64 % m.n ≡ x.0 * x.0 % m.n) }
{
    let lo = words::wrapping_mul(x.0, x.0);
    let hi = words::mul_high(x.0, x.0);
    let q = words::wrapping_mul(lo, m.mu);
    let carried = hi + (lo != 0) as u64;
    let sum = carried + words::mul_high(q, m.n);
    MontgomeryResidue(smaller(sum, words::wrapping_sub(sum, m.n)))
}

// Twice x modulo n where the bit is 1, and x where it is 0: shifted by the bit, that less n, and the smaller of the two. It holds of an even n as
// well, so it takes no `Modulus`; so does the start.
pub fn double(x: MontgomeryResidue, bit: u64, n: u64) -> MontgomeryResidue
    requires { (x.0 < n) × (n < 2 ^ 63) × (bit ≤ 1) }
    ensures { (bit ≡ 1 → result.0 ≡ 2 * x.0 % n) × (bit ≡ 0 → result.0 ≡ x.0) }
{
    let y = x.0 << bit;
    let z = words::wrapping_sub(y, n);
    MontgomeryResidue(smaller(y, z))
}

// 2 in Montgomery form: 2^65 modulo n, by way of 2^64 - n, which fits a word.
pub fn start(n: u64) -> MontgomeryResidue
    requires { (0 < n) × (n < 2 ^ 63) }
    ensures { result.0 ≡ montgomery n 2 }
{
    double(MontgomeryResidue((u64::MAX - n + 1) % n), 1, n)
}

// The turn of Algorithm 5 for bit i of e.
pub fn turn(x: Counted, e: u64, i: u32, m: Modulus) -> Counted
    requires { Standing m.n e (i + 1) x }
    ensures { Standing m.n e i result }
{
    let bit = (e >> i) & 1;
    crate::counted::double(crate::counted::square(x, m), bit, m.n)
}

// The place of the top bit of e.
pub fn top(e: u64) -> u32
    requires { 0 < e }
    ensures { result + 1 ≡ bit_length e }
{
    e.ilog2()
}

// Algorithm 5 from its line 5 on: 2^e in Montgomery form. `start` takes the top bit of e, and each bit below it
// squares, and doubles where it is set.
pub fn power(e: u64, m: Modulus) -> Counted
    requires { 0 < e }
    ensures { PowerOf m.n e result }
{
    let mut x = crate::counted::start(m.n);
    for i in (0..top(e)).rev() {
        x = turn(x, e, i, m);
    }
    x
}

// Algorithm 7: the whole part of t / n modulo 2^128, for each multiple t of 2^128 whose residue is r.
// The paper has 1 / n there; with mu = - 1 / n both products change their sign.
pub fn divide(r: Residue, m: Modulus) -> Wide
    requires { r.0 < m.n }
    ensures { (t : ℕ) → t % 2 ^ 128 ≡ 0 → t % m.n ≡ r.0 → joined result.hi result.lo ≡ t / m.n % 2 ^ 128 }
{
    if r.0 == 0 {
        return Wide::ZERO;
    }
    let lo = words::wrapping_mul(r.0, m.mu);
    Wide {
        hi: words::wrapping_mul(words::mul_high(m.n, lo) + 1, m.mu),
        lo,
    }
}

// The whole part of 2^(64 + f) / n, modulo 2^128, where x stands for 2^f: its number is the plain residue of 2^(64 + f). This is the
// one place where a number goes from one struct to the other.
pub fn quotient_of(x: Counted, m: Modulus) -> Quotient
    requires { x.residue.0 < m.n }
    ensures { QuotientOf m.n x result }
{
    Quotient {
        value: divide(Residue(x.residue.0), m),
        squarings: crate::counted::squarings(x),
    }
}

// The whole part of 2^e / n, modulo 2^128, where 2^128 divides 2^e.
pub fn quotient_of_power(e: u64, n: u64) -> Quotient
    requires { (n % 2 ≡ 1) × (n < 2 ^ 63) × (128 ≤ e) }
    ensures { (joined result.value.hi result.value.lo ≡ 2 ^ e / n % 2 ^ 128) × (result.squarings ≡ bit_length (e - 64) - 1) }
{
    let m = Modulus::new(n);
    quotient_of(power(e - 64, m), m)
}

// The whole part of 2^e / n, modulo 2^128, by long division a bit at a time: for the few small e.
pub fn plain_quotient(e: u64, n: u64) -> Wide
    requires { (0 < n) × (n < 2 ^ 63) }
    ensures { joined result.hi result.lo ≡ 2 ^ e / n % 2 ^ 128 }
{
    let mut q = Wide::from(1 / n);
    let mut r = 1 % n;
    for _ in 0..e {
        q = words::add(q, q);
        r += r;
        if n <= r {
            q = words::add(q, Wide::from(1));
            r -= n;
        }
    }
    q
}

// Eight powers side by side: each turn is made in every lane before the next. What one lane promises holds of each.
#![tactic(auto)]

ghost use Rattle.std.specs.Prelude.{◌≡◌, ◌+◌, ◌%◌, ◌^◌, ◌≤◌, ◌<◌};
ghost use Rattle.algebra.specs.Bits.{bit_length};
ghost use Rattle.montgomery.specs.Standing.{Started, Standing, PowerOf, QuotientOf, PowerQuotient};
ghost use Rattle.lanes.specs.Lanes.{Each, at, modulus, lane, quotient};

use montgomery::Quotient;
use montgomery::counted::Counted;
use montgomery::modulus::Modulus;
use std::array;

// 2 in Montgomery form in each lane, for even n as well, so it takes no `Modulus`. Only `start` makes a `Counted`, so the array begins with
// that of lane 0 in all lanes. With `from_fn`, as `moduli` has it, the search leaves goals about the closure here and in `quotients`, which the
// loops do not have.
pub fn starts(n: [u64; 8]) -> [Counted; 8]
    requires { Each (λ j. (0 < at n j) × (at n j < 2 ^ 63)) }
    ensures { Each (λ j. Started (at n j) (lane result j)) }
{
    let mut x = [montgomery::counted::start(n[0]); 8];
    for j in 1..8 {
        x[j] = montgomery::counted::start(n[j]);
    }
    x
}

// The turn of each lane for bit i of its exponent.
pub fn turns(mut x: [Counted; 8], e: [u64; 8], i: u32, m: [Modulus; 8]) -> [Counted; 8]
    requires { Each (λ j. Standing (modulus m j).n (at e j) (i + 1) (lane x j)) }
    ensures { Each (λ j. Standing (modulus m j).n (at e j) i (lane result j)) }
{
    for j in 0..8 {
        x[j] = montgomery::turn(x[j], e[j], i, m[j]);
    }
    x
}

// The number of each lane's modulus.
pub fn numbers(m: [Modulus; 8]) -> [u64; 8]
    ensures { Each (λ j. at result j ≡ (modulus m j).n) }
{
    let mut n = [0; 8];
    for j in 0..8 {
        n[j] = m[j].n;
    }
    n
}

// 2^e in Montgomery form in each lane, for exponents of one bit length.
pub fn powers(e: [u64; 8], m: [Modulus; 8]) -> [Counted; 8]
    requires { Each (λ j. (0 < at e j) × (bit_length (at e j) ≡ bit_length (at e 0))) }
    ensures { Each (λ j. PowerOf (modulus m j).n (at e j) (lane result j)) }
{
    let mut x = starts(numbers(m));
    for i in (0..montgomery::top(e[0])).rev() {
        // The check does not cover a call whose result is put in an array that is there.
        let y = turns(x, e, i, m);
        x = y;
    }
    x
}

// Each lane's modulus.
pub fn moduli(n: [u64; 8]) -> [Modulus; 8]
    requires { Each (λ j. (at n j % 2 ≡ 1) × (at n j < 2 ^ 63)) }
    ensures { Each (λ j. (modulus result j).n ≡ at n j) }
{
    array::from_fn(|j| Modulus::new(n[j]))
}

// The quotient of each lane, where its residue stands for 2^f.
pub fn quotients(x: [Counted; 8], m: [Modulus; 8]) -> [Quotient; 8]
    requires { Each (λ j. (lane x j).residue.0 < (modulus m j).n) }
    ensures { Each (λ j. QuotientOf (modulus m j).n (lane x j) (quotient result j)) }
{
    let mut q = [Quotient::ZERO; 8];
    for j in 0..8 {
        q[j] = montgomery::quotient_of(x[j], m[j]);
    }
    q
}

// The whole part of 2^(64 + f) / n in each lane, modulo 2^128, for f of one bit length.
pub fn quotients_of_powers(f: [u64; 8], n: [u64; 8]) -> [Quotient; 8]
    requires { Each (λ j. (at n j % 2 ≡ 1) × (at n j < 2 ^ 63) × (64 ≤ at f j) × (bit_length (at f j) ≡ bit_length (at f 0))) }
    ensures { Each (λ j. PowerQuotient (at n j) (at f j) (quotient result j)) }
{
    let m = moduli(n);
    quotients(powers(f, m), m)
}

// Terms in groups of eight, whose sizes are worked side by side.
ghost use Rattle.std.specs.Prelude.{◌≡◌, ◌+◌, ◌-◌, ◌*◌, ◌%◌, ◌<◌, ◌≤◌, true};
ghost use Rattle.algebra.specs.Sum.{sum};
ghost use Rattle.words.specs.Words.{joined};
ghost use Rattle.lanes.specs.Lanes.{Each, at, quotient};
ghost use Rattle.series.specs.Series.{modulus};
ghost use Rattle.series.specs.Results.{SizeOf, SumOf};
ghost use Rattle.series.specs.Groups.{Group, every_other};

use crate::terms::Worked;
use crate::workable::Terms;
use montgomery::Quotient;
use words::Wide;

// Whether the eight terms from k on are before the end and make a group: each has an E of at least 128, and E - 64 of one bit length.
pub fn grouped(terms: &Terms, k: u64) -> bool
    requires { k ≤ terms.now.end }
    ensures { result ≡ true → (k + 8 ≤ terms.now.end) × Group terms.now.numbers k }
{
    let numbers = terms.numbers;
    terms.end - k >= 8
        && numbers.step * (k + 7) + 128 <= numbers.rise
        && montgomery::top(numbers.rise - numbers.step * k - 64)
            == montgomery::top(numbers.rise - numbers.step * (k + 7) - 64)
}

// E - 64 of each term of a group.
pub fn exponents(terms: &Terms, k: u64) -> [u64; 8]
    requires { (k + 8 ≤ terms.now.end) × Group terms.now.numbers k }
    ensures { Each (λ j. at result j ≡ terms.now.numbers.rise - terms.now.numbers.step * (k + j) - 64) }
{
    let numbers = terms.numbers;
    let mut f = [0; 8];
    for j in 0..8 {
        f[j] = numbers.rise - numbers.step * (k + j as u64) - 64;
    }
    f
}

// N of each term of a group.
pub fn divisors(terms: &Terms, k: u64) -> [u64; 8]
    requires { k + 8 ≤ terms.now.end }
    ensures { Each (λ j. at result j ≡ terms.now.numbers.m * (k + j) + terms.now.numbers.j) }
{
    let numbers = terms.numbers;
    let mut n = [0; 8];
    for j in 0..8 {
        n[j] = numbers.m * (k + j as u64) + numbers.j;
    }
    n
}

// The sizes of the terms of a group, and the squarings that each takes.
#[tactic(auto, using(crate::proofs::Alike::falls, crate::proofs::Alike::same_length), unfolding(crate::specs::Series::size, crate::specs::Squarings::squarings))]
pub fn sizes(terms: &Terms, k: u64) -> [Quotient; 8]
    requires { (k + 8 ≤ terms.now.end) × Group terms.now.numbers k }
    ensures { Each (λ j. SizeOf terms.now.numbers (k + j) (quotient result j)) }
{
    let f = exponents(terms, k);
    let n = divisors(terms, k);
    lanes::quotients_of_powers(f, n)
}

// The sizes of every other term of a group, from the lane `first` on, added up modulo 2^128.
#[tactic(auto, using(algebra::proofs::Sums::sum_none, algebra::proofs::Sums::sum_next, words::proofs::Joined::joined_zero))]
pub fn every_other(q: [Quotient; 8], first: usize) -> Wide
    requires { first < 2 }
    ensures { joined result.hi result.lo ≡ sum (every_other q first) 0 4 % modulus }
{
    let mut total = Wide::ZERO;
    for i in 0..4 {
        total = words::add(total, q[2 * i + first].value);
    }
    total
}

// The squarings of a group added up, modulo 2^128.
#[tactic(auto, using(algebra::proofs::Sums::sum_none, algebra::proofs::Sums::sum_next, words::proofs::Joined::joined_low))]
pub fn squarings_of(q: [Quotient; 8]) -> Wide
    ensures { joined result.hi result.lo ≡ sum (λ j. (quotient q j).squarings) 0 8 % modulus }
{
    let mut total = Wide::ZERO;
    for one in q {
        let count = Wide::from(one.squarings);
        total = words::add(total, count);
    }
    total
}

// The signed sum of the sizes of a group, and their squarings, both modulo 2^128. Every other term has one sign, so that no term asks for its own.
pub fn group_sum(terms: &Terms, k: u64) -> Worked
    requires { (k + 8 ≤ terms.now.end) × Group terms.now.numbers k }
    ensures { SumOf terms.now.numbers k 8 result }
{
    let q = sizes(terms, k);
    let even = crate::terms::signed(terms.numbers, k, every_other(q, 0));
    let odd = crate::terms::signed(terms.numbers, k + 1, every_other(q, 1));
    Worked {
        sum: words::add(even, odd),
        squarings: squarings_of(q),
    }
}

// What working the next terms of a range gives, and how many they are.
#[derive(Clone, Copy)]
pub struct Part {
    pub worked: Worked,
    pub count: u64,
}

// A group where there is one, else one term.
pub fn next_part(terms: &Terms, k: u64) -> Part
    requires { k < terms.now.end }
    ensures { (0 < result.count) × (k + result.count ≤ terms.now.end) × SumOf terms.now.numbers k result.count result.worked }
{
    if grouped(terms, k) {
        Part {
            worked: group_sum(terms, k),
            count: 8,
        }
    } else {
        let q = crate::terms::size(terms.numbers, k);
        Part {
            worked: crate::terms::one_term(terms.numbers, k, q),
            count: 1,
        }
    }
}

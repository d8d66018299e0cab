// The terms of a row: how many there are, their sizes and signs, and the signed sum of a range of them with the squarings that it takes.
ghost use Rattle.std.specs.Prelude.{◌≡◌, ℕ, ◌+◌, ◌-◌, ◌<◌, ◌≤◌};
ghost use Rattle.words.specs.Words.{joined};
ghost use Rattle.series.specs.Series.{Formula, Row, row_count, row_at, is_added, term_count, range_sum};
ghost use Rattle.series.specs.Squarings.{range_squarings};
ghost use Rattle.series.specs.Names.{formula_of, numbers_of};
ghost use Rattle.series.specs.Fitting.{Position, Workable};
ghost use Rattle.series.specs.Results.{SignedAs, SizeOf, SumOf};

use crate::Series;
use crate::place::RowAt;
use crate::workable::Terms;
use montgomery::Quotient;
use words::Wide;

// What the terms of a row at a position are worked by: E of term k is rise - step * k, N is m * k + j; whether the even terms are added, and
// the odd ones. All of it is known before the first term, so that no term asks for the formula.
#[derive(Clone, Copy)]
pub struct Numbers {
    pub rise: u64,
    pub step: u64,
    pub m: u64,
    pub j: u64,
    pub even: bool,
    pub odd: bool,
}

// What working a range of terms gives: their signed sum modulo 2^128, and how many squarings were made.
#[derive(Clone, Copy)]
pub struct Worked {
    pub sum: Wide,
    pub squarings: Wide,
}

// K, the number of terms taken in every row.
#[tactic(auto, unfolding(crate::specs::Series::term_count))]
pub fn term_count(f: Series, p: u64) -> u64
    requires { Position (formula_of f) p }
    ensures { result ≡ term_count (formula_of f) p }
{
    (4 * (p - 1) + 130) / crate::formula::step(f) + 1
}

// The numbers of a row at position p.
#[tactic(auto, unfolding(crate::specs::Series::is_added))]
pub fn numbers_of(at: RowAt) -> Numbers
    ensures { result ≡ numbers_of (formula_of at.f) at.p (row_at (formula_of at.f) at.row) }
{
    let r = crate::formula::row_at(at.f, at.row);
    Numbers {
        rise: 4 * (at.p - 1) + r.lead,
        step: crate::formula::step(at.f),
        m: r.m,
        j: r.j,
        even: r.added,
        odd: r.added != crate::formula::alternates(at.f),
    }
}

// The terms of a row at position p before `end`.
pub fn terms_of(at: RowAt, end: u64) -> Terms
    requires { end ≤ term_count (formula_of at.f) at.p }
    ensures { (result.numbers ≡ numbers_of (formula_of at.f) at.p (row_at (formula_of at.f) at.row)) × (result.end ≡ end) }
{
    Terms {
        numbers: numbers_of(at),
        end,
    }
}

// Whether term k is added.
#[tactic(auto, unfolding(crate::specs::Series::is_added))]
pub fn is_added(numbers: Numbers, k: u64) -> bool
    ensures { (F : Formula) (p : ℕ) (r : Row) → numbers ≡ numbers_of F p r → result ≡ is_added F r k }
{
    if k % 2 == 0 {
        numbers.even
    } else {
        numbers.odd
    }
}

// The size of term k, and the squarings that it takes: none where E is below 128. Where E is below 0 the size is 0. It asks of the numbers only
// that this one term can be worked.
#[tactic(auto, using(words::proofs::Joined::joined_zero), unfolding(crate::specs::Series::size, crate::specs::Squarings::squarings))]
pub fn size(numbers: Numbers, k: u64) -> Quotient
    requires { Workable numbers (k + 1) }
    ensures { SizeOf numbers k result }
{
    let fall = numbers.step * k;
    if numbers.rise < fall {
        return Quotient::ZERO;
    }
    let e = numbers.rise - fall;
    let n = numbers.m * k + numbers.j;
    if e < 128 {
        Quotient {
            value: montgomery::plain_quotient(e, n),
            squarings: 0,
        }
    } else {
        montgomery::quotient_of_power(e, n)
    }
}

// A number with the sign of term k, modulo 2^128.
#[tactic(auto, using(crate::proofs::ByHalves::negative, words::proofs::Joined::joined_zero, words::proofs::Joined::joined_lt))]
pub fn signed(numbers: Numbers, k: u64, value: Wide) -> Wide
    ensures { SignedAs numbers k (joined value.hi value.lo) (joined result.hi result.lo) }
{
    if is_added(numbers, k) {
        value
    } else {
        words::sub(Wide::ZERO, value)
    }
}

// A term with its sign, modulo 2^128, from its size and its squarings.
#[tactic(auto, using(crate::proofs::ByHalves::one_signed, crate::proofs::RangeSquarings::one_alone, words::proofs::Joined::joined_low))]
pub fn one_term(numbers: Numbers, k: u64, q: Quotient) -> Worked
    ensures { SizeOf numbers k q → SumOf numbers k 1 result }
{
    Worked {
        sum: signed(numbers, k, q.value),
        squarings: Wide::from(q.squarings),
    }
}

// The signed sum of the sizes of a row's terms from `first` up to, not including, `end`, modulo 2^128, and their squarings, which may be
// more than a word holds.
#[tactic(auto, using(crate::proofs::RangeSums::none, crate::proofs::RangeSums::and_part, crate::proofs::RangeSquarings::none_yet, crate::proofs::RangeSquarings::and_counts, words::proofs::Joined::joined_zero))]
pub fn range_sum(at: RowAt, first: u64, end: u64) -> Worked
    requires { (first ≤ end) × (end ≤ term_count (formula_of at.f) at.p) }
    ensures { (joined result.sum.hi result.sum.lo ≡ range_sum (formula_of at.f) at.p (row_at (formula_of at.f) at.row) first (end - first))
        × (joined result.squarings.hi result.squarings.lo ≡ range_squarings (formula_of at.f) at.p (row_at (formula_of at.f) at.row) first (end - first)) }
{
    let terms = terms_of(at, end);
    let mut sum = Wide::ZERO;
    let mut squarings = Wide::ZERO;
    let mut k = first;
    // A part has eight terms or one, so that no range counts the steps.
    while k < end {
        let next = crate::groups::next_part(&terms, k);
        let worked = next.worked;
        sum = words::add(sum, worked.sum);
        squarings = words::add(squarings, worked.squarings);
        k += next.count;
    }
    Worked { sum, squarings }
}

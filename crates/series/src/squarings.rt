// The squarings that a range of terms takes, without working the terms: those of one bit length follow one another.
ghost use Rattle.std.specs.Prelude.{◌≡◌, ℕ, ◌+◌, ◌-◌, ◌<◌, ◌≤◌};
ghost use Rattle.words.specs.Words.{joined};
ghost use Rattle.series.specs.Series.{Formula, Row, row_count, row_at, term_count};
ghost use Rattle.series.specs.Squarings.{cut_at, range_squarings};
ghost use Rattle.series.specs.Squarings as definition;
ghost use Rattle.series.specs.Names.{formula_of, numbers_of};
ghost use Rattle.series.specs.Fitting.{Position};

use crate::place::RowAt;
use crate::terms::Numbers;
use words::Wide;

// How many terms, from term 0 on, have an E of at least `least`. E falls by the step, so their number is a quotient.
#[tactic(auto, unfolding(crate::specs::Squarings::reaching))]
pub fn reaching(numbers: Numbers, least: u64) -> u64
    requires { (0 < numbers.step) × (0 < least) }
    ensures { (F : Formula) (p : ℕ) (r : Row) → numbers ≡ numbers_of F p r → result ≡ definition.reaching F p r least }
{
    if numbers.rise < least {
        return 0;
    }
    (numbers.rise - least) / numbers.step + 1
}

// Of the terms from `first` up to, not including, `end`, where those end that have an E - 64 of at least 2^b.
#[tactic(auto, unfolding(crate::specs::Squarings::cut_at))]
pub fn cut_at(numbers: Numbers, first: u64, end: u64, b: u64) -> u64
    requires { (0 < numbers.step) × (first ≤ end) × (b ≤ 63) }
    ensures { (F : Formula) (p : ℕ) (r : Row) → numbers ≡ numbers_of F p r → result ≡ cut_at F p r first end b }
{
    let count = reaching(numbers, 64 + (1 << b));
    count.clamp(first, end)
}

// The squarings of a row's terms from `first` up to, not including, `end`: for each bit length, its squarings times the number of its terms.
#[tactic(auto, using(crate::proofs::Numbers::step_positive, algebra::proofs::Sums::sum_none, words::proofs::Joined::joined_zero))]
pub fn range_squarings(at: RowAt, first: u64, end: u64) -> Wide
    requires { (first ≤ end) × (end ≤ term_count (formula_of at.f) at.p) }
    ensures { joined result.hi result.lo ≡ range_squarings (formula_of at.f) at.p (row_at (formula_of at.f) at.row) first (end - first) }
{
    let numbers = crate::terms::numbers_of(at);
    let mut squarings = Wide::ZERO;
    let mut cut = cut_at(numbers, first, end, 6);
    for b in 6..63 {
        let next = cut_at(numbers, first, end, b + 1);
        squarings = words::add(squarings, words::mul(b, cut - next));
        cut = next;
    }
    squarings
}

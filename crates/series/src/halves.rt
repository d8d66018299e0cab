// The signed sum of a range of terms by halves, with the squarings that it takes: the range is cut in two, and each part again, until a part
// has one term or none. The terms' sizes come from a store of one group.
ghost use Rattle.std.specs.Prelude.{◌≡◌, ◌+◌, ◌-◌, ◌<◌, ◌≤◌};
ghost use Rattle.words.specs.Words.{joined};
ghost use Rattle.series.specs.Series.{row_count, row_at, term_count, range_sum};
ghost use Rattle.series.specs.Squarings.{range_squarings};
ghost use Rattle.series.specs.Names.{formula_of};
ghost use Rattle.series.specs.Fitting.{Position};
ghost use Rattle.series.specs.Results.{SumOf};

use crate::place::RowAt;
use crate::store::Store;
use crate::terms::Worked;
use words::Wide;

// One term with its sign, or none, modulo 2^128.
#[tactic(auto, using(crate::proofs::RangeSums::empty, crate::proofs::RangeSquarings::none_yet, words::proofs::Joined::joined_zero))]
pub fn one_or_none(first: u64, count: u64, store: &mut Store) -> Worked
    requires { (first + count ≤ store.old.terms.end) × (count < 2) }
    ensures { (store.new.terms ≡ store.old.terms) × SumOf store.old.terms.numbers first count result }
{
    if count == 0 {
        let none = Wide::ZERO;
        return Worked {
            sum: none,
            squarings: none,
        };
    }
    let q = store.size_of(first);
    crate::terms::one_term(store.terms.numbers, first, q)
}

// The signed sum of the sizes of `count` terms from `first` on, and their squarings, both modulo 2^128. The lower half has count / 2 of them.
// A half is cut again only if it has two terms or more, so that there is one call for each cut and none for each term.
pub fn by_halves(first: u64, count: u64, store: &mut Store) -> Worked
    requires { first + count ≤ store.old.terms.end }
    ensures { (store.new.terms ≡ store.old.terms) × SumOf store.old.terms.numbers first count result }
{
    let half = count / 2;
    let rest = count - half;
    let cut = first + half;
    let lower = if half < 2 {
        one_or_none(first, half, store)
    } else {
        by_halves(first, half, store)
    };
    let upper = if rest < 2 {
        one_or_none(cut, rest, store)
    } else {
        by_halves(cut, rest, store)
    };
    Worked {
        sum: words::add(lower.sum, upper.sum),
        squarings: words::add(lower.squarings, upper.squarings),
    }
}

// The signed sum of the sizes of a row's terms from `first` up to, not including, `end`, modulo 2^128, by halves, and their squarings.
#[tactic(auto, using(crate::proofs::Numbers::short, crate::proofs::Table::fitting, crate::proofs::RangeSquarings::exact))]
pub fn range_sum(at: RowAt, first: u64, end: u64) -> Worked
    requires { (first ≤ end) × (end ≤ term_count (formula_of at.f) at.p) }
    ensures { (joined result.sum.hi result.sum.lo ≡ range_sum (formula_of at.f) at.p (row_at (formula_of at.f) at.row) first (end - first))
        × (joined result.squarings.hi result.squarings.lo ≡ range_squarings (formula_of at.f) at.p (row_at (formula_of at.f) at.row) first (end - first)) }
{
    let mut store = Store::empty(crate::terms::terms_of(at, end));
    if first < end {
        store.fill(first);
    }
    by_halves(first, end - first, &mut store)
}

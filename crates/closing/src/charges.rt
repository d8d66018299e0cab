// How many terms of a run are charged on each side: those with E of 0 or more.
ghost use Rattle.std.specs.Prelude.{◌≡◌, cond, ◌^◌, ◌<◌, ◌≤◌};
ghost use Rattle.series.specs.Series.{row_count, row_at, term_count, plus, minus};
ghost use Rattle.series.specs.Names.{formula_of};
ghost use Rattle.series.specs.Fitting.{Position};
ghost use Rattle.interval.specs.Interval.{is_charged, charges};
ghost use Rattle.interval.specs.Counts.{charged_in, side_count};

use series::Series;
use series::place::RowAt;

// n terms where they are on the side that is counted, else none.
pub fn on_side(same: bool, n: u64) -> u64
    ensures counts { result ≡ cond same n 0 }
    ensures small { result ≤ n }
{
    if same { n } else { 0 }
}

// Those of a row, among its added terms or its subtracted ones: k from 0 to (4n + l + 128) / step, the even ones with the sign of term 0,
// the odd ones with that of term 1.
pub fn in_row(added: bool, at: RowAt) -> u64
    ensures counts { result ≡ side_count (formula_of at.f) (cond added plus minus) (row_at (formula_of at.f) at.row)
        (charged_in (formula_of at.f) at.p (row_at (formula_of at.f) at.row)) }
    ensures small { result ≤ 2 ^ 60 }
{
    let numbers = series::terms::numbers_of(at);
    let count = numbers.rise / numbers.step + 1;
    on_side(numbers.even == added, (count + 1) / 2) + on_side(numbers.odd == added, count / 2)
}

// Those of all rows: a, or b.
pub fn in_run(f: Series, added: bool, p: u64) -> u64
    requires { Position (formula_of f) p }
    ensures counts { result ≡ charges is_charged (formula_of f) (cond added plus minus) p (term_count (formula_of f) p) }
    ensures small { result < 2 ^ 63 }
{
    let rows = series::formula::row_count(f) as u64;
    let mut sum = 0;
    for row in 0..rows {
        sum += in_row(added, RowAt { f, p, row });
    }
    sum
}

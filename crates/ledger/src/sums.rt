// The sums of a ledger's rows, as an array by value. It has room for seven; a formula with fewer rows leaves the rest 0.
ghost use Rattle.std.specs.Prelude.{◌≡◌, ℕ, ◌%◌, length};
ghost use Rattle.algebra.specs.Sum.{sum};
ghost use Rattle.words.specs.Words.{joined};
ghost use Rattle.series.specs.Names.{formula_of};
ghost use Rattle.series.specs.Series.{row_count, modulus};
ghost use Rattle.run.specs.Run.{limits_of};
ghost use Rattle.ledger.specs.Ledger.{ledger_size};
ghost use Rattle.ledger.specs.RowSums.{value_at, held_in, with_sums};

use crate::Ledger;
use series::Series;
use words::Wide;

impl<'a> Ledger<'a> {
    // Its sums: as many are read as there are rows.
    pub fn sums(&self) -> [Wide; 7]
        ensures { (row : ℕ) → value_at result row ≡ held_in (row_count (formula_of self.now.f)) self.now.bytes.now row }
    {
        let rows = series::formula::row_count(self.f);
        let mut sums = [Wide::ZERO; 7];
        for row in 0..rows {
            sums[row] = words::get_wide(self.bytes, 16 + 16 * row);
        }
        sums
    }
}

// Puts the sums back: as many as there are rows.
pub fn put(f: Series, s: &mut [u8], sums: [Wide; 7])
    requires { length s.old ≡ ledger_size (limits_of (formula_of f)) }
    ensures { s.new ≡ with_sums (limits_of (formula_of f)) s.old (value_at sums) }
{
    let rows = series::formula::row_count(f);
    for row in 0..rows {
        words::put_wide(s, 16 + 16 * row, sums[row]);
    }
}

// The sums of all rows, added up.
pub fn total(sums: [Wide; 7]) -> Wide
    ensures { joined result.hi result.lo ≡ sum (value_at sums) 0 7 % modulus }
{
    let mut total = Wide::ZERO;
    for sum in &sums {
        total = words::add(total, *sum);
    }
    total
}

// The marks of a ledger: one of them, and how many there are. Whether none is set from a block on, and whether all below it are, follow from the
// count.
ghost use Rattle.std.specs.Prelude.{◌≡◌, false, not, ◌||◌, ◌-◌, ◌*◌, ◌/◌, ◌%◌, ◌^◌, ◌≤◌, ◌<◌, ltb, length};
ghost use Rattle.algebra.specs.Sum.{sum};
ghost use Rattle.algebra.specs.Test.{all_below};
ghost use Rattle.series.specs.Names.{formula_of};
ghost use Rattle.series.specs.Series.{row_count};
ghost use Rattle.run.specs.Run.{limits_of};
ghost use Rattle.ledger.specs.Ledger.{ledger_size, marks_at, mark_at, bit_in, mark};
ghost use Rattle.ledger.specs.Marks.{row_marks, marks_from};

use crate::Ledger;
use series::Series;

// Where a ledger's marks begin: past the sums of its rows.
pub fn start(f: Series) -> usize
    ensures { result ≡ marks_at (limits_of (formula_of f)) }
{
    16 + 16 * series::formula::row_count(f)
}

// Whether the bit of a row and block is set, of any bytes that have its place; `Ledger` has the same.
#[tactic(auto, unfolding(crate::specs::Ledger::bit_in))]
pub fn bit_set(f: Series, s: &[u8], row: usize, block: usize) -> bool
    requires { mark_at (limits_of (formula_of f)) row block < length s.now }
    ensures { result ≡ bit_in (limits_of (formula_of f)) s.now row block }
{
    let byte = s[start(f) + (32 * row + block / 8)];
    let bit = block % 8;
    let shifted = byte >> bit;
    shifted % 2 == 1
}

// Sets the bit of a row and block.
pub fn set_bit(f: Series, ledger: &mut [u8], row: usize, block: usize)
    requires { (mark_at (limits_of (formula_of f)) row block < length ledger.old)
        × (bit_in (limits_of (formula_of f)) ledger.old row block ≡ false) }
    ensures { ledger.new ≡ mark (limits_of (formula_of f)) ledger.old row block }
{
    let at = start(f) + (32 * row + block / 8);
    let bit = block % 8;
    let byte = ledger[at] + (1 << bit);
    ledger[at] = byte;
}

// How many bits of a byte are set.
pub fn ones(byte: u8) -> usize
    ensures counts { result ≡ sum (λ i. byte / 2 ^ i % 2) 0 8 }
    ensures few { result ≤ 8 }
{
    byte.count_ones() as usize
}

impl<'a> Ledger<'a> {
    // Whether the bit of a row and block is set.
    pub fn bit_set(&self, row: usize, block: usize) -> bool
        requires { mark_at (limits_of (formula_of self.now.f)) row block < length self.now.bytes.now }
        ensures { result ≡ bit_in (limits_of (formula_of self.now.f)) self.now.bytes.now row block }
    {
        bit_set(self.f, self.bytes, row, block)
    }

    // How many bits of a row are set, from block `first` up to, not including, `end`: by whole bytes where they lie between the two, so that a
    // turn takes eight blocks or one.
    pub fn count_row(&self, row: usize, first: usize, end: usize) -> usize
        requires { (row < row_count (formula_of self.now.f)) × (first ≤ end) × (end ≤ 256) }
        ensures counts { result ≡ row_marks (limits_of (formula_of self.now.f)) self.now.bytes.now first (end - first) row }
        ensures few { result ≤ 256 }
    {
        let at = start(self.f) + 32 * row;
        let mut marks = 0;
        let mut block = first;
        while block < end {
            if block % 8 == 0 && block + 8 <= end {
                marks += ones(self.bytes[at + block / 8]);
                block += 8;
            } else {
                marks += self.bit_set(row, block) as usize;
                block += 1;
            }
        }
        marks
    }

    // The same of all rows.
    pub fn count(&self, first: usize, end: usize) -> usize
        requires { (first ≤ end) × (end ≤ 256) }
        ensures { result ≡ marks_from (limits_of (formula_of self.now.f)) self.now.bytes.now first (end - first) (row_count (formula_of self.now.f)) }
    {
        let rows = series::formula::row_count(self.f);
        let mut marks = 0;
        for row in 0..rows {
            marks += self.count_row(row, first, end);
        }
        marks
    }

    // Whether no bit is set at c or above.
    pub fn none_from(&self, c: usize) -> bool
        requires { c ≤ 256 }
        ensures { result ≡ all_below (row_count (formula_of self.now.f)) (λ row. all_below 256 (λ block. ltb block c
            || not (bit_in (limits_of (formula_of self.now.f)) self.now.bytes.now row block))) }
    {
        self.count(c, 256) == 0
    }

    // Whether every bit below c is set.
    pub fn all_below(&self, c: usize) -> bool
        requires { c ≤ 256 }
        ensures { result ≡ all_below (row_count (formula_of self.now.f)) (λ row. all_below c (λ block.
            bit_in (limits_of (formula_of self.now.f)) self.now.bytes.now row block)) }
    {
        self.count(0, c) == series::formula::row_count(self.f) * c
    }
}

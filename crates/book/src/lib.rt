// The book beside a ledger: the sum of every marked ticket, in 16 bytes each.
#![tactic(auto)]

ghost use Rattle.std.specs.Prelude.{◌≡◌, true, ◌&&◌, ◌+◌, ◌*◌, ◌%◌, ◌≤◌, ◌<◌, length};
ghost use Rattle.algebra.specs.Sum.{sum};
ghost use Rattle.algebra.specs.Test.{all_below};
ghost use Rattle.words.specs.Words.{joined};
ghost use Rattle.series.specs.Names.{formula_of};
ghost use Rattle.series.specs.Series.{row_count, modulus};
ghost use Rattle.run.specs.Refusal.{tested};
ghost use Rattle.run.specs.Run.{limits_of};
ghost use Rattle.run.specs.Answers.{verdict_of};
ghost use Rattle.ledger.specs.Ledger.{ledger_size, mark_at, bit_in};
ghost use Rattle.ledger.specs.Calls.{of_ledger};
ghost use Rattle.book.specs.Book.{book_size, kept_at, kept_in, adds_up, zero_elsewhere, in_order_with, view_with, unmark, Removable};
ghost use Rattle.book.specs.Book as definition;

use ledger::Ledger;
use run::{Refusal, Run};
use series::Series;
use words::Wide;

// How many bytes a book has.
pub fn book_size(f: Series) -> usize
    ensures { result ≡ book_size (limits_of (formula_of f)) }
{
    4096 * series::formula::row_count(f)
}

// The sum that is kept for a ticket.
pub fn kept(book: &[u8], row: usize, block: usize) -> Wide
    requires { kept_at row block + 16 ≤ length book.now }
    ensures { joined result.hi result.lo ≡ kept_in book.now row block }
{
    words::get_wide(book, 16 * (256 * row + block))
}

// Keeps x for a ticket.
pub fn keep(book: &mut [u8], row: usize, block: usize, x: Wide)
    requires { kept_at row block + 16 ≤ length book.old }
    ensures { book.new ≡ definition.keep book.old row block (joined x.hi x.lo) }
{
    words::put_wide(book, 16 * (256 * row + block), x);
}

// The sums that are kept in a row, added up.
pub fn row_total(book: &[u8], row: usize) -> Wide
    requires { 4096 * row + 4096 ≤ length book.now }
    ensures { joined result.hi result.lo ≡ sum (kept_in book.now row) 0 256 % modulus }
{
    let mut total = Wide::ZERO;
    for block in 0..256 {
        total = words::add(total, kept(book, row, block));
    }
    total
}

// Whether every place of a row is zero whose bit is not set, up to the last of the 256.
pub fn zero_elsewhere(ledger: &Ledger, book: &[u8], row: usize) -> bool
    requires { (4096 * row + 4096 ≤ length book.now) × (row < row_count (formula_of ledger.now.f)) }
    ensures { result ≡ zero_elsewhere (limits_of (formula_of ledger.now.f)) ledger.now.bytes.now book.now row }
{
    for block in 0..256 {
        if !ledger.bit_set(row, block) && !words::is_equal(kept(book, row, block), Wide::ZERO) {
            return false;
        }
    }
    true
}

// A ledger with the bytes of a book beside it, as many as one of its formula has.
#[derive(Clone, Copy)]
pub struct Books<'a, 'b> {
    pub ledger: Ledger<'a>,
    pub book: &'b [u8],
    ghost sized: { length book.now ≡ book_size (limits_of (formula_of ledger.f)) },
}

impl<'a, 'b> Books<'a, 'b> {
    // Whether in every row the kept sums add up to the row's sum, and places without a mark are zero.
    pub fn rows_agree(&self) -> bool
        ensures { result ≡ all_below (row_count (formula_of self.now.ledger.f)) (λ row. adds_up self.now.ledger.bytes.now self.now.book.now row
            && zero_elsewhere (limits_of (formula_of self.now.ledger.f)) self.now.ledger.bytes.now self.now.book.now row) }
    {
        let rows = series::formula::row_count(self.ledger.f);
        let sums = self.ledger.sums();
        for row in 0..rows {
            if !words::is_equal(row_total(self.book, row), sums[row]) {
                return false;
            }
            if !zero_elsewhere(&self.ledger, self.book, row) {
                return false;
            }
        }
        true
    }

    // Whether both are in order together.
    #[tactic(auto, unfolding(crate::specs::Book::in_order_with))]
    pub fn in_order(&self) -> bool
        ensures { result ≡ in_order_with (limits_of (formula_of self.now.ledger.f)) self.now.ledger.bytes.now self.now.book.now }
    {
        self.ledger.in_order() && self.rows_agree()
    }

    // What the refusal table says of both, and of the run that a call names.
    #[tactic(auto, unfolding(run::specs::Refusal::refusal, run::specs::Refusal::answer, crate::specs::Book::view_with))]
    pub fn test_book(&self, run: Run) -> Result<(), Refusal>
        ensures { verdict_of result
            ≡ tested (of_ledger (view_with (limits_of (formula_of self.now.ledger.f)) self.now.ledger.bytes.now self.now.book.now) run.p run.c) }
    {
        if !self.in_order() {
            return Err(Refusal::OutOfOrder);
        }
        if !ledger::same_run(self.ledger.bytes, run) {
            return Err(Refusal::OtherRun);
        }
        Ok(())
    }
}

// Clears the bit of a row and block. Apart from `set_bit`, as each asks for the bit that it is to change.
pub fn clear_bit(f: Series, ledger: &mut [u8], row: usize, block: usize)
    requires { (mark_at (limits_of (formula_of f)) row block < length ledger.old)
        × (bit_in (limits_of (formula_of f)) ledger.old row block ≡ true) }
    ensures { ledger.new ≡ unmark (limits_of (formula_of f)) ledger.old row block }
{
    let at = ledger::marks::start(f) + (32 * row + block / 8);
    let bit = block % 8;
    let byte = ledger[at] - (1 << bit);
    ledger[at] = byte;
}

// Takes x out of the sum of a row and clears the bit of a row and block.
pub fn remove(f: Series, ledger: &mut [u8], row: usize, block: usize, x: Wide)
    requires { Removable (limits_of (formula_of f)) ledger.old row block }
    ensures { ledger.new ≡ definition.remove (limits_of (formula_of f)) ledger.old row block (joined x.hi x.lo) }
{
    let mut sums = Ledger { f, bytes: ledger }.sums();
    sums[row] = words::sub(sums[row], x);
    clear_bit(f, ledger, row, block);
    ledger::sums::put(f, ledger, sums);
}

// The sheet of all tickets that stand: what is marked in a ledger, with the sums that the book keeps.
#![tactic(auto)]

ghost use Rattle.std.specs.Prelude.{◌≡◌, [], ◌∷◌, ◌++◌, ◌+◌, ◌*◌, ◌≤◌, ◌<◌, length, take, drop};
ghost use Rattle.series.specs.Names.{formula_of};
ghost use Rattle.run.specs.Run.{limits_of};
ghost use Rattle.run.specs.Answers.{answer_of};
ghost use Rattle.run.specs.Call.{answered, Does};
ghost use Rattle.sheet.specs.Sheet.{contents_of, bodies_of};
ghost use Rattle.standing.specs.Standing.{set_bits, standing_in, standing_call};

use book::Books;
use ledger::Ledger;
use run::{Answer, Refusal};
use series::Series;
use sheet::layout;

// What the refusal table says, its tests in the order of their numbers; or the length of the sheet. Every set bit counts for the size, in a ledger
// that is not in order too.
pub fn test_standing(f: Series, ledger: &[u8], book: &[u8], out: &[u8]) -> Answer
    ensures { answer_of result ≡ answered (standing_call (limits_of (formula_of f)) ledger.now book.now out.now) }
{
    if !booking::sized(f, ledger, book) {
        return Err(Refusal::WrongSize);
    }
    let ledger = Ledger { f, bytes: ledger };
    let size = 16 + 20 * ledger.count(0, 256);
    if out.len() < size {
        return Err(Refusal::WrongSize);
    }
    let books = Books { ledger, book };
    if !books.in_order() {
        return Err(Refusal::OutOfOrder);
    }
    Ok(size as u32)
}

// Writes contents and bodies of the e marked tickets, in the order of their places. The loop ends with the last of them, not with the last
// place, so that it counts those that are left.
pub fn put_tickets(books: &Books, e: usize, out: &mut [u8])
    requires { (e ≡ set_bits (limits_of (formula_of books.now.ledger.f)) books.now.ledger.bytes.now) × (16 + 20 * e ≤ length out.old) }
    ensures { out.new
        ≡ take 16 out.old ++ contents_of (standing_in (limits_of (formula_of books.now.ledger.f)) books.now.ledger.bytes.now books.now.book.now)
        ++ bodies_of (standing_in (limits_of (formula_of books.now.ledger.f)) books.now.ledger.bytes.now books.now.book.now)
        ++ drop (16 + 20 * e) out.old }
{
    let mut left = e;
    let mut place = 0;
    while left > 0 {
        let row = place / 256;
        let block = place % 256;
        place += 1;
        if books.ledger.bit_set(row, block) {
            let i = e - left;
            layout::put_line(out, i, row as u64, block as u64);
            layout::put_body(out, e, i, book::kept(books.book, row, block));
            left -= 1;
        }
    }
}

// Writes the sheet of all marked tickets. All tests are done before a byte is written.
pub fn write(f: Series, ledger: &[u8], book: &[u8], out: &mut [u8]) -> Answer
    ensures { Does (standing_call (limits_of (formula_of f)) ledger.now book.now out.old) (answer_of result)
        (out.new ∷ []) }
{
    let size = test_standing(f, ledger, book, out)?;
    let e = (size as usize - 16) / 20;
    let ledger = Ledger { f, bytes: ledger };
    layout::put_head(ledger.run(), e as u64, out);
    put_tickets(&Books { ledger, book }, e, out);
    Ok(size)
}

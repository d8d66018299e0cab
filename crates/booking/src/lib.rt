// Posting by the book, and withdrawing: ledger and book are changed together, or not at all.
#![tactic(auto)]

ghost use Rattle.std.specs.Prelude.{◌≡◌, true};
ghost use mathlib.Core.List.{[], ◌∷◌, foldl};
ghost use Rattle.series.specs.Names.{formula_of};
ghost use Rattle.run.specs.Refusal.{tested};
ghost use Rattle.run.specs.Run.{limits_of};
ghost use Rattle.run.specs.Answers.{answer_of, verdict_of};
ghost use Rattle.run.specs.Call.{answered, Does};
ghost use Rattle.sheet.specs.Sheet.{entries};
ghost use Rattle.book.specs.Book.{view_with, keep_entry};
ghost use Rattle.booking.specs.Calls.{book_post_call, book_sheet_post_call, entry_tests, withdraw_call, AllKeepable};

use book::Books;
use ledger::Ledger;
use run::{Answer, Refusal, Ticket};
use series::Series;
use sheet::contents;
use sheet::contents::{Entries, Sheet};
use words::Wide;

// Whether a ledger and a book have their sizes.
#[tactic(auto, unfolding(book::specs::Book::view_with))]
pub fn sized(f: Series, ledger: &[u8], book: &[u8]) -> bool
    ensures { result ≡ (view_with (limits_of (formula_of f)) ledger.now book.now).sized }
{
    ledger.len() == ledger::ledger_size(f) && book.len() == book::book_size(f)
}

// What the refusal table says of one ticket, a ledger and a book, up to the ticket's mark: the tests in the order of their numbers.
pub fn test_entry(f: Series, ledger: &[u8], book: &[u8], t: Ticket) -> Result<(), Refusal>
    ensures { verdict_of result
        ≡ tested (entry_tests (limits_of (formula_of f)) (view_with (limits_of (formula_of f)) ledger.now book.now) t.run.p t.run.c t.row t.block) }
{
    if !sized(f, ledger, book) {
        return Err(Refusal::WrongSize);
    }
    run::test_ticket(f, t)?;
    let ledger = Ledger { f, bytes: ledger };
    Books { ledger, book }.test_book(t.run)
}

// What the refusal table says of a post of one ticket.
pub fn test_post(
    f: Series,
    ledger: &[u8],
    book: &[u8],
    t: Ticket,
    sum: &[u8],
) -> Result<(), Refusal>
    ensures { verdict_of result
        ≡ answered (book_post_call (limits_of (formula_of f)) ledger.now book.now t.run.p t.run.c t.row t.block sum.now) }
{
    if sum.len() != 16 {
        return Err(Refusal::WrongSize);
    }
    test_entry(f, ledger, book, t)?;
    let ledger = Ledger { f, bytes: ledger };
    if ledger.bit_set(t.row as usize, t.block as usize) {
        return Err(Refusal::Marked);
    }
    Ok(())
}

// Posts a ticket with its sum, and keeps the sum. All tests are done before a byte is written.
pub fn post(f: Series, ledger: &mut [u8], book: &mut [u8], t: Ticket, sum: &[u8]) -> Answer
    ensures { Does (book_post_call (limits_of (formula_of f)) ledger.old book.old t.run.p t.run.c t.row t.block sum.now) (answer_of result)
        (ledger.new ∷ book.new ∷ []) }
{
    test_post(f, ledger, book, t, sum)?;
    let x = words::get_wide(sum, 0);
    ledger::enter(f, ledger, t.row as usize, t.block as usize, x);
    book::keep(book, t.row as usize, t.block as usize, x);
    Ok(0)
}

// What the refusal table says of posting a sheet: its tests in the order of their numbers. Ledger and book are looked at once.
pub fn test_sheet_post(f: Series, ledger: &[u8], book: &[u8], s: &[u8]) -> Result<(), Refusal>
    ensures { verdict_of result ≡ answered (book_sheet_post_call (limits_of (formula_of f)) ledger.now book.now s.now) }
{
    if !sized(f, ledger, book) {
        return Err(Refusal::WrongSize);
    }
    if !contents::sized(f, s) {
        return Err(Refusal::WrongSize);
    }
    let sheet = Sheet { bytes: s };
    sheet.test_sheet(f)?;
    let ledger = Ledger { f, bytes: ledger };
    let books = Books { ledger, book };
    books.test_book(sheet.run())?;
    let entries = Entries {
        bytes: s,
        count: sheet.count(),
    };
    if !posting::none_marked(&ledger, &entries) {
        return Err(Refusal::Marked);
    }
    Ok(())
}

// Keeps the sum of every ticket of a sheet.
pub fn keep_all(f: Series, book: &mut [u8], s: &[u8])
    requires { AllKeepable (limits_of (formula_of f)) book.old s.now }
    ensures { book.new ≡ foldl keep_entry book.old (entries s.now) }
{
    let count = Sheet { bytes: s }.count();
    let entries = Entries { bytes: s, count };
    for i in 0..entries.count {
        let row = entries.row(i) as usize;
        let block = entries.block(i) as usize;
        book::keep(book, row, block, entries.body(i));
    }
}

// Posts a sheet, and keeps its sums. All tests are done before a byte is written.
pub fn post_sheet(f: Series, ledger: &mut [u8], book: &mut [u8], s: &[u8]) -> Answer
    ensures { Does (book_sheet_post_call (limits_of (formula_of f)) ledger.old book.old s.now) (answer_of result)
        (ledger.new ∷ book.new ∷ []) }
{
    test_sheet_post(f, ledger, book, s)?;
    posting::enter_all(f, ledger, s);
    keep_all(f, book, s);
    Ok(0)
}

// What the refusal table says of a withdrawal.
pub fn test_withdraw(f: Series, ledger: &[u8], book: &[u8], t: Ticket) -> Result<(), Refusal>
    ensures { verdict_of result ≡ answered (withdraw_call (limits_of (formula_of f)) ledger.now book.now t.run.p t.run.c t.row t.block) }
{
    test_entry(f, ledger, book, t)?;
    let ledger = Ledger { f, bytes: ledger };
    if !ledger.bit_set(t.row as usize, t.block as usize) {
        return Err(Refusal::Unposted);
    }
    Ok(())
}

// Withdraws a ticket: its sum goes out of the ledger and of the book. All tests are done before a byte is written.
pub fn withdraw(f: Series, ledger: &mut [u8], book: &mut [u8], t: Ticket) -> Answer
    ensures { Does (withdraw_call (limits_of (formula_of f)) ledger.old book.old t.run.p t.run.c t.row t.block) (answer_of result)
        (ledger.new ∷ book.new ∷ []) }
{
    test_withdraw(f, ledger, book, t)?;
    let row = t.row as usize;
    let block = t.block as usize;
    let x = book::kept(book, row, block);
    book::remove(f, ledger, row, block, x);
    book::keep(book, row, block, Wide::ZERO);
    Ok(0)
}

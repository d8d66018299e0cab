// Posting a ticket or a sheet by the book, withdrawing a ticket, and the sheet of all that stands. For Bellard's runs alone.
ghost use Rattle.std.specs.Prelude.{[], ◌∷◌};
ghost use Rattle.series.specs.Bellard.{bellard};
ghost use Rattle.calls.specs.Request.{BookPost, BookPostSheet, Withdraw, StandingSheet, Serves};

use crate::answers::to_c;
use run::{Run, Ticket};
use series::Series;

#[unsafe(no_mangle)]
pub extern "C" fn bbp_book_post(
    ledger: &mut [u8],
    book: &mut [u8],
    p: u64,
    c: u64,
    row: u64,
    block: u64,
    sum: &[u8],
) -> i64
    ensures { Serves bellard (BookPost ledger.old book.old p c row block sum.now) result
        (ledger.new ∷ book.new ∷ []) (sum.now ∷ []) }
{
    let run = Run { p, c };
    let t = Ticket { run, row, block };
    to_c(booking::post(Series::Bellard, ledger, book, t, sum))
}

#[unsafe(no_mangle)]
pub extern "C" fn bbp_book_sheet_post(ledger: &mut [u8], book: &mut [u8], sheet: &[u8]) -> i64
    ensures { Serves bellard (BookPostSheet ledger.old book.old sheet.now) result
        (ledger.new ∷ book.new ∷ []) (sheet.now ∷ []) }
{
    to_c(booking::post_sheet(Series::Bellard, ledger, book, sheet))
}

#[unsafe(no_mangle)]
pub extern "C" fn bbp_book_withdraw(
    ledger: &mut [u8],
    book: &mut [u8],
    p: u64,
    c: u64,
    row: u64,
    block: u64,
) -> i64
    ensures { Serves bellard (Withdraw ledger.old book.old p c row block) result
        (ledger.new ∷ book.new ∷ []) [] }
{
    let run = Run { p, c };
    let t = Ticket { run, row, block };
    to_c(booking::withdraw(Series::Bellard, ledger, book, t))
}

#[unsafe(no_mangle)]
pub extern "C" fn bbp_standing_sheet(ledger: &[u8], book: &[u8], sheet: &mut [u8]) -> i64
    ensures { Serves bellard (StandingSheet ledger.now book.now sheet.old) result (sheet.new ∷ [])
        (ledger.now ∷ book.now ∷ []) }
{
    to_c(standing::write(Series::Bellard, ledger, book, sheet))
}

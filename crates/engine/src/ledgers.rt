// Opening a ledger, posting a ticket or a sheet to it, and looking at a sheet before it is posted.
ghost use Rattle.std.specs.Prelude.{[], ◌∷◌};
ghost use Rattle.series.specs.Bellard.{bellard};
ghost use Rattle.series.specs.Check.{check};
ghost use Rattle.calls.specs.Request.{Open, Post, PostSheet, Look, Serves};

use crate::answers::to_c;
use run::{Run, Ticket};
use series::Series;

#[unsafe(no_mangle)]
pub extern "C" fn bbp_open(p: u64, c: u64, ledger: &mut [u8]) -> i64
    ensures { Serves bellard (Open p c ledger.old) result (ledger.new ∷ []) [] }
{
    to_c(ledger::open(Series::Bellard, Run { p, c }, ledger))
}

#[unsafe(no_mangle)]
pub extern "C" fn bbp_check_open(p: u64, c: u64, ledger: &mut [u8]) -> i64
    ensures { Serves check (Open p c ledger.old) result (ledger.new ∷ []) [] }
{
    to_c(ledger::open(Series::Check, Run { p, c }, ledger))
}

#[unsafe(no_mangle)]
pub extern "C" fn bbp_post(
    ledger: &mut [u8],
    p: u64,
    c: u64,
    row: u64,
    block: u64,
    sum: &[u8],
) -> i64
    ensures { Serves bellard (Post ledger.old p c row block sum.now) result (ledger.new ∷ []) (sum.now ∷ []) }
{
    let run = Run { p, c };
    let t = Ticket { run, row, block };
    to_c(ledger::post(Series::Bellard, ledger, t, sum))
}

#[unsafe(no_mangle)]
pub extern "C" fn bbp_check_post(
    ledger: &mut [u8],
    p: u64,
    c: u64,
    row: u64,
    block: u64,
    sum: &[u8],
) -> i64
    ensures { Serves check (Post ledger.old p c row block sum.now) result (ledger.new ∷ []) (sum.now ∷ []) }
{
    let run = Run { p, c };
    let t = Ticket { run, row, block };
    to_c(ledger::post(Series::Check, ledger, t, sum))
}

#[unsafe(no_mangle)]
pub extern "C" fn bbp_sheet_post(ledger: &mut [u8], sheet: &[u8]) -> i64
    ensures { Serves bellard (PostSheet ledger.old sheet.now) result (ledger.new ∷ []) (sheet.now ∷ []) }
{
    to_c(posting::post(Series::Bellard, ledger, sheet))
}

#[unsafe(no_mangle)]
pub extern "C" fn bbp_check_sheet_post(ledger: &mut [u8], sheet: &[u8]) -> i64
    ensures { Serves check (PostSheet ledger.old sheet.now) result (ledger.new ∷ []) (sheet.now ∷ []) }
{
    to_c(posting::post(Series::Check, ledger, sheet))
}

// For Bellard's runs alone.
#[unsafe(no_mangle)]
pub extern "C" fn bbp_look(ledger: &[u8], sheet: &[u8], total: &mut [u8]) -> i64
    ensures { Serves bellard (Look ledger.now sheet.now total.old) result (total.new ∷ [])
        (ledger.now ∷ sheet.now ∷ []) }
{
    to_c(look::look(Series::Bellard, ledger, sheet, total))
}

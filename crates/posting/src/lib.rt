// Posting a sheet: all of its tickets, or none.
#![tactic(auto)]

ghost use Rattle.std.specs.Prelude.{◌≡◌, true, ◌+◌, ◌*◌, ◌≤◌, length};
ghost use mathlib.Core.List.{[], ◌∷◌, foldl};
ghost use Rattle.series.specs.Names.{formula_of};
ghost use Rattle.run.specs.Run.{limits_of};
ghost use Rattle.run.specs.Answers.{answer_of, verdict_of};
ghost use Rattle.run.specs.Call.{Does, answered};
ghost use Rattle.ledger.specs.Ledger.{ledger_size};
ghost use Rattle.sheet.specs.Sheet.{entries_from, entries, every, all_tickets};
ghost use Rattle.posting.specs.Calls.{enter_entry, sheet_post_call, unset, AllEnterable};

use ledger::Ledger;
use run::{Answer, Refusal};
use series::Series;
use sheet::contents;
use sheet::contents::{Entries, Sheet};

// Whether none of the entries, each of a row and block that the ledger has, has its bit set.
pub fn none_marked(ledger: &Ledger, entries: &Entries) -> bool
    requires { all_tickets (limits_of (formula_of ledger.now.f)) 256 (entries_from entries.now.bytes.now 0 entries.now.count) ≡ true }
    ensures { result ≡ every (unset (limits_of (formula_of ledger.now.f)) ledger.now.bytes.now)
        (entries_from entries.now.bytes.now 0 entries.now.count) }
{
    for i in 0..entries.count {
        if ledger.bit_set(entries.row(i) as usize, entries.block(i) as usize) {
            return false;
        }
    }
    true
}

// What the refusal table says of posting a sheet: its tests in the order of their numbers.
pub fn test_post(f: Series, ledger: &[u8], s: &[u8]) -> Result<(), Refusal>
    ensures { verdict_of result ≡ answered (sheet_post_call (limits_of (formula_of f)) ledger.now s.now) }
{
    if ledger.len() != ledger::ledger_size(f) {
        return Err(Refusal::WrongSize);
    }
    if !contents::sized(f, s) {
        return Err(Refusal::WrongSize);
    }
    let sheet = Sheet { bytes: s };
    sheet.test_sheet(f)?;
    let ledger = Ledger { f, bytes: ledger };
    ledger.test_ledger(sheet.run())?;
    let entries = Entries {
        bytes: s,
        count: sheet.count(),
    };
    if !none_marked(&ledger, &entries) {
        return Err(Refusal::Marked);
    }
    Ok(())
}

// Enters every ticket of a sheet, in order: the rows' sums are read once and put back once. The tickets ascend, so none sets the bit of
// another.
pub fn enter_all(f: Series, ledger: &mut [u8], s: &[u8])
    requires { AllEnterable (limits_of (formula_of f)) ledger.old s.now }
    ensures { ledger.new ≡ foldl (enter_entry (limits_of (formula_of f))) ledger.old (entries s.now) }
{
    let count = Sheet { bytes: s }.count();
    let entries = Entries { bytes: s, count };
    let mut sums = Ledger { f, bytes: ledger }.sums();
    for i in 0..entries.count {
        let row = entries.row(i) as usize;
        let sum = entries.body(i);
        sums[row] = words::add(sums[row], sum);
        ledger::marks::set_bit(f, ledger, row, entries.block(i) as usize);
    }
    ledger::sums::put(f, ledger, sums);
}

// Posts a sheet. All tests are done before a byte is written.
pub fn post(f: Series, ledger: &mut [u8], s: &[u8]) -> Answer
    ensures { Does (sheet_post_call (limits_of (formula_of f)) ledger.old s.now) (answer_of result) (ledger.new ∷ []) }
{
    test_post(f, ledger, s)?;
    enter_all(f, ledger, s);
    Ok(0)
}

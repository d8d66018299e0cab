// A look at a sheet before it is posted: what posting it would answer and leave, with the ledger only read.
#![tactic(auto)]

ghost use Rattle.std.specs.Prelude.{[], ◌∷◌, ◌≡◌, pos};
ghost use Rattle.words.specs.Words.{joined};
ghost use Rattle.series.specs.Names.{formula_of};
ghost use Rattle.run.specs.Run.{limits_of};
ghost use Rattle.run.specs.Answers.{answer_of};
ghost use Rattle.run.specs.Call.{Does, answered, bytes_left};
ghost use Rattle.ledger.specs.Ledger.{total_in};
ghost use Rattle.posting.specs.Calls.{sheet_post_call};
ghost use Rattle.look.specs.Look.{unmarked_in, look_call};

use ledger::Ledger;
use run::{Answer, Refusal};
use series::Series;
use sheet::contents::{Entries, Sheet};
use words::Wide;

// The number of unmarked tickets that would remain: all of the run, less those marked now, less the sheet's.
pub fn remaining(f: Series, ledger: &[u8], s: &[u8]) -> u32
    requires { answered (sheet_post_call (limits_of (formula_of f)) ledger.now s.now) ≡ pos 0 }
    ensures { result ≡ unmarked_in (limits_of (formula_of f)) (bytes_left (sheet_post_call (limits_of (formula_of f)) ledger.now s.now) 0) }
{
    let ledger = Ledger { f, bytes: ledger };
    let c = ledger.run().c as usize;
    let tickets = series::formula::row_count(f) * c;
    let marked = ledger.count(0, c);
    let e = Sheet { bytes: s }.count();
    (tickets - marked - e) as u32
}

// The total that the row sums would have.
pub fn total_after(f: Series, ledger: &[u8], s: &[u8]) -> Wide
    requires { answered (sheet_post_call (limits_of (formula_of f)) ledger.now s.now) ≡ pos 0 }
    ensures { joined result.hi result.lo
        ≡ total_in (limits_of (formula_of f)) (bytes_left (sheet_post_call (limits_of (formula_of f)) ledger.now s.now) 0) }
{
    let count = Sheet { bytes: s }.count();
    let entries = Entries { bytes: s, count };
    let mut total = ledger::sums::total(Ledger { f, bytes: ledger }.sums());
    for i in 0..entries.count {
        total = words::add(total, entries.body(i));
    }
    total
}

// What the refusal table says of a look, its tests in the order of their numbers; or the number of unmarked tickets that would remain.
pub fn test_look(f: Series, ledger: &[u8], s: &[u8], total: &[u8]) -> Answer
    ensures { answer_of result ≡ answered (look_call (limits_of (formula_of f)) ledger.now s.now total.now) }
{
    if total.len() != 16 {
        return Err(Refusal::WrongSize);
    }
    posting::test_post(f, ledger, s)?;
    Ok(remaining(f, ledger, s))
}

// Looks at a sheet. All tests are done before a byte is written.
pub fn look(f: Series, ledger: &[u8], s: &[u8], total: &mut [u8]) -> Answer
    ensures { Does (look_call (limits_of (formula_of f)) ledger.now s.now total.old) (answer_of result)
        (total.new ∷ []) }
{
    let rest = test_look(f, ledger, s, total)?;
    words::put_wide(total, 0, total_after(f, ledger, s));
    Ok(rest)
}

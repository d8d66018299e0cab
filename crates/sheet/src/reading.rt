// Reading a sheet: a list of its tickets and their sums.
ghost use Rattle.std.specs.Prelude.{[], ◌∷◌, ◌≡◌, ◌+◌, ◌*◌, ◌≤◌, length};
ghost use Rattle.series.specs.Names.{formula_of};
ghost use Rattle.run.specs.Run.{limits_of};
ghost use Rattle.run.specs.Answers.{answer_of};
ghost use Rattle.run.specs.Call.{Does, answered};
ghost use Rattle.sheet.specs.Sheet.{sheet_count, entries_from, list_of, bodies_of};
ghost use Rattle.sheet.specs.Calls.{over, read_call};

use crate::contents;
use crate::contents::{Entries, Sheet};
use run::{Answer, Refusal};
use series::Series;

// What the refusal table says of reading: its tests in the order of their numbers.
pub fn test_read(f: Series, s: &[u8], list: &[u8], sums: &[u8]) -> Answer
    ensures { answer_of result ≡ answered (read_call (limits_of (formula_of f)) s.now list.now sums.now) }
{
    if !contents::sized(f, s) {
        return Err(Refusal::WrongSize);
    }
    let sheet = Sheet { bytes: s };
    let e = sheet.count();
    if list.len() < 2 * e {
        return Err(Refusal::WrongSize);
    }
    if sums.len() < 16 * e {
        return Err(Refusal::WrongSize);
    }
    sheet.test_sheet(f)?;
    Ok(e as u32)
}

// Writes the list of the tickets.
pub fn put_list(entries: &Entries, list: &mut [u8])
    requires { 2 * entries.now.count ≤ length list.old }
    ensures { list.new ≡ over (list_of (entries_from entries.now.bytes.now 0 entries.now.count)) list.old }
{
    for i in 0..entries.count {
        words::put(list, 2 * i, 2, entries.key(i));
    }
}

// Writes the sums of all tickets.
pub fn put_sums(entries: &Entries, sums: &mut [u8])
    requires { (entries.now.count ≡ sheet_count entries.now.bytes.now) × (16 + 20 * entries.now.count ≤ length entries.now.bytes.now)
        × (16 * entries.now.count ≤ length sums.old) }
    ensures { sums.new ≡ over (bodies_of (entries_from entries.now.bytes.now 0 entries.now.count)) sums.old }
{
    for i in 0..entries.count {
        words::put_wide(sums, 16 * i, entries.body(i));
    }
}

// Reads a sheet. All tests are done before a byte is written.
pub fn read(f: Series, s: &[u8], list: &mut [u8], sums: &mut [u8]) -> Answer
    ensures { Does (read_call (limits_of (formula_of f)) s.now list.old sums.old) (answer_of result)
        (list.new ∷ sums.new ∷ []) }
{
    let e = test_read(f, s, list, sums)?;
    let entries = Entries {
        bytes: s,
        count: e as usize,
    };
    put_list(&entries, list);
    put_sums(&entries, sums);
    Ok(e)
}

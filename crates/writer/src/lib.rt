// Writing a sheet: the tickets of a list are worked, in order.
#![tactic(auto)]

ghost use Rattle.std.specs.Prelude.{◌≡◌, true, [], ◌∷◌, ◌++◌, ◌+◌, ◌*◌, ◌≤◌, length, take, drop};
ghost use Rattle.series.specs.Names.{formula_of};
ghost use Rattle.run.specs.Run.{limits_of, in_range};
ghost use Rattle.run.specs.Answers.{answer_of};
ghost use Rattle.run.specs.Call.{Does, answered};
ghost use Rattle.sheet.specs.Sheet.{listed, all_tickets, bodies_of};
ghost use Rattle.sheet.specs.Calls.{write_call};

use run::{Answer, Refusal, Run, Ticket};
use series::Series;
use sheet::lists::Pairs;
use ticket::Part;

// What the refusal table says of writing: its tests in the order of their numbers.
pub fn test_write(f: Series, run: Run, list: &[u8], out: &[u8]) -> Answer
    ensures { answer_of result ≡ answered (write_call (formula_of f) run.p run.c list.now out.now) }
{
    if !sheet::lists::sized(f, list) {
        return Err(Refusal::WrongSize);
    }
    let size = 16 + 20 * (list.len() / 2);
    if out.len() < size {
        return Err(Refusal::WrongSize);
    }
    sheet::lists::test_list(f, run, list)?;
    Ok(size as u32)
}

// Works the tickets, and writes their sums. A sheet does not carry the squarings.
pub fn put_bodies(f: Series, run: Run, pairs: &Pairs, out: &mut [u8])
    requires { (16 + 20 * pairs.now.count ≤ length out.old) × (in_range (limits_of (formula_of f)) run.p run.c ≡ true)
        × (all_tickets (limits_of (formula_of f)) run.c (listed (formula_of f) run.p run.c pairs.now.bytes.now) ≡ true) }
    ensures { out.new
        ≡ take (16 + 4 * pairs.now.count) out.old ++ bodies_of (listed (formula_of f) run.p run.c pairs.now.bytes.now)
        ++ drop (16 + 20 * pairs.now.count) out.old }
{
    for i in 0..pairs.count {
        let t = Ticket {
            run,
            row: pairs.row(i),
            block: pairs.block(i),
        };
        let worked = ticket::sum(f, Part::Whole, t);
        sheet::layout::put_body(out, pairs.count, i, worked.sum);
    }
}

// Writes a sheet. All tests are done before a byte is written.
pub fn write(f: Series, run: Run, list: &[u8], out: &mut [u8]) -> Answer
    ensures { Does (write_call (formula_of f) run.p run.c list.now out.old) (answer_of result) (out.new ∷ []) }
{
    let size = test_write(f, run, list, out)?;
    let pairs = Pairs {
        bytes: list,
        count: list.len() / 2,
    };
    sheet::layout::put_head(run, pairs.count as u64, out);
    sheet::layout::put_contents(&pairs, out);
    put_bodies(f, run, &pairs, out);
    Ok(size)
}

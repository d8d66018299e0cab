// The ledger: its bytes, opening it and posting a ticket.
#![tactic(auto)]

pub mod marks;
pub mod sums;

ghost use Rattle.std.specs.Prelude.{◌≡◌, [], ◌∷◌, false, ◌&&◌, ◌+◌, ◌*◌, ◌≤◌, eqb, length};
ghost use Rattle.words.specs.Words.{joined};
ghost use Rattle.series.specs.Names.{formula_of};
ghost use Rattle.run.specs.Refusal.{tested};
ghost use Rattle.run.specs.Run.{limits_of};
ghost use Rattle.run.specs.Answers.{answer_of, verdict_of};
ghost use Rattle.run.specs.Call.{answered, Does};
ghost use Rattle.ledger.specs.Ledger.{ledger_size, pos_in, blocks_in, in_order, view_of, Enterable};
ghost use Rattle.ledger.specs.Ledger as definition;
ghost use Rattle.ledger.specs.Calls.{of_ledger, open_call, post_call};

use run::{Answer, Refusal, Run, Ticket};
use series::Series;
use words::Wide;

// How many bytes a ledger has.
pub fn ledger_size(f: Series) -> usize
    ensures { result ≡ ledger_size (limits_of (formula_of f)) }
{
    16 + 48 * series::formula::row_count(f)
}

// Opens a ledger for a run. Whatever the bytes were, they become a fresh ledger.
pub fn open(f: Series, run: Run, ledger: &mut [u8]) -> Answer
    ensures { Does (open_call (limits_of (formula_of f)) run.p run.c ledger.old) (answer_of result) (ledger.new ∷ []) }
{
    if ledger.len() != ledger_size(f) {
        return Err(Refusal::WrongSize);
    }
    if !run::in_range(f, run) {
        return Err(Refusal::OutOfRange);
    }
    ledger.fill(0);
    words::put(ledger, 0, 8, run.p);
    words::put(ledger, 8, 2, run.c);
    Ok(0)
}

// Whether the run of a ledger, or of what else begins as one does, is the one that a call names.
#[tactic(auto, unfolding(crate::specs::Ledger::pos_in, crate::specs::Ledger::blocks_in))]
pub fn same_run(s: &[u8], run: Run) -> bool
    requires { 10 ≤ length s.now }
    ensures { result ≡ (eqb run.p (pos_in s.now) && eqb run.c (blocks_in s.now)) }
{
    run.p == words::get(s, 0, 8) && run.c == words::get(s, 8, 2)
}

// The bytes of a ledger, as many as one of its formula has.
#[derive(Clone, Copy)]
pub struct Ledger<'a> {
    pub f: Series,
    pub bytes: &'a [u8],
    ghost sized: { length bytes.now ≡ ledger_size (limits_of (formula_of f)) },
}

impl<'a> Ledger<'a> {
    // Its run.
    #[tactic(auto, unfolding(crate::specs::Ledger::pos_in, crate::specs::Ledger::blocks_in))]
    pub fn run(&self) -> Run
        ensures { (result.p ≡ pos_in self.now.bytes.now) × (result.c ≡ blocks_in self.now.bytes.now) }
    {
        Run {
            p: words::get(self.bytes, 0, 8),
            c: words::get(self.bytes, 8, 2),
        }
    }

    // Whether it is in order.
    #[tactic(auto, unfolding(crate::specs::Ledger::in_order, crate::specs::Ledger::pos_in, crate::specs::Ledger::blocks_in))]
    pub fn in_order(&self) -> bool
        ensures { result ≡ in_order (limits_of (formula_of self.now.f)) self.now.bytes.now }
    {
        let run = self.run();
        run::in_range(self.f, run)
            && words::get(self.bytes, 10, 6) == 0
            && self.none_from(run.c as usize)
    }

    // What the refusal table says of it, and of the run that a call names.
    #[tactic(auto, unfolding(run::specs::Refusal::refusal, run::specs::Refusal::answer, crate::specs::Ledger::view_of))]
    pub fn test_ledger(&self, run: Run) -> Result<(), Refusal>
        ensures { verdict_of result ≡ tested (of_ledger (view_of (limits_of (formula_of self.now.f)) self.now.bytes.now) run.p run.c) }
    {
        if !self.in_order() {
            return Err(Refusal::OutOfOrder);
        }
        if !same_run(self.bytes, run) {
            return Err(Refusal::OtherRun);
        }
        Ok(())
    }
}

// Adds x to the sum of a row and sets the bit of a row and block.
pub fn enter(f: Series, ledger: &mut [u8], row: usize, block: usize, x: Wide)
    requires { Enterable (limits_of (formula_of f)) ledger.old row block }
    ensures { ledger.new ≡ definition.enter (limits_of (formula_of f)) ledger.old row block (joined x.hi x.lo) }
{
    let mut sums = Ledger { f, bytes: ledger }.sums();
    sums[row] = words::add(sums[row], x);
    marks::set_bit(f, ledger, row, block);
    sums::put(f, ledger, sums);
}

// What the refusal table says of a post of one ticket: its tests in the order of their numbers.
pub fn test_post(f: Series, ledger: &[u8], t: Ticket, sum: &[u8]) -> Result<(), Refusal>
    ensures { verdict_of result ≡ answered (post_call (limits_of (formula_of f)) ledger.now t.run.p t.run.c t.row t.block sum.now) }
{
    if ledger.len() != ledger_size(f) {
        return Err(Refusal::WrongSize);
    }
    if sum.len() != 16 {
        return Err(Refusal::WrongSize);
    }
    run::test_ticket(f, t)?;
    let ledger = Ledger { f, bytes: ledger };
    ledger.test_ledger(t.run)?;
    if ledger.bit_set(t.row as usize, t.block as usize) {
        return Err(Refusal::Marked);
    }
    Ok(())
}

// Posts a ticket with its sum. All tests are done before a byte is written.
pub fn post(f: Series, ledger: &mut [u8], t: Ticket, sum: &[u8]) -> Answer
    ensures { Does (post_call (limits_of (formula_of f)) ledger.old t.run.p t.run.c t.row t.block sum.now) (answer_of result)
        (ledger.new ∷ []) }
{
    test_post(f, ledger, t, sum)?;
    let x = words::get_wide(sum, 0);
    enter(f, ledger, t.row as usize, t.block as usize, x);
    Ok(0)
}

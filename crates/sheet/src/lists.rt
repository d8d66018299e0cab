// Lists: two bytes for each ticket, and what is asked of them.
ghost use Rattle.std.specs.Prelude.{◌≡◌, ℕ, ◌+◌, ◌*◌, ◌<◌, true, length, get_or};
ghost use Rattle.words.specs.Bytes.{field};
ghost use Rattle.series.specs.Series.{Formula};
ghost use Rattle.series.specs.Names.{formula_of};
ghost use Rattle.run.specs.Refusal.{tested};
ghost use Rattle.run.specs.Run.{limits_of};
ghost use Rattle.run.specs.Answers.{verdict_of};
ghost use Rattle.sheet.specs.Sheet.{list_most, listed, all_tickets};
ghost use Rattle.sheet.specs.Sheet as definition;
ghost use Rattle.sheet.specs.Tests.{list_sized, of_list};

use run::{Refusal, Run};
use series::Series;

// The most bytes that a list can have.
pub fn most(f: Series) -> usize
    ensures { result ≡ list_most (limits_of (formula_of f)) }
{
    512 * series::formula::row_count(f)
}

// Whether a list has a size that a list can have.
#[tactic(auto, unfolding(crate::specs::Tests::list_sized))]
pub fn sized(f: Series, list: &[u8]) -> bool
    ensures { result ≡ list_sized (limits_of (formula_of f)) list.now }
{
    list.len() % 2 == 0 && list.len() <= most(f)
}

// A list as pairs of bytes: the block's, then the row's.
#[derive(Clone, Copy)]
pub struct Pairs<'a> {
    pub bytes: &'a [u8],
    pub count: usize,
    ghost even: { length bytes.now ≡ 2 * count },
}

impl<'a> Pairs<'a> {
    // The row of pair i.
    pub fn row(&self, i: usize) -> u64
        requires { i < self.now.count }
        ensures { (result ≡ get_or self.now.bytes.now (2 * i + 1) 0) × (result < 256) }
    {
        let row = self.bytes[2 * i + 1];
        row as u64
    }

    // The block of pair i.
    pub fn block(&self, i: usize) -> u64
        requires { i < self.now.count }
        ensures { (result ≡ get_or self.now.bytes.now (2 * i) 0) × (result < 256) }
    {
        let block = self.bytes[2 * i];
        block as u64
    }

    // What the pairs ascend by.
    pub fn key(&self, i: usize) -> u64
        requires { i < self.now.count }
        ensures { result ≡ field self.now.bytes.now (2 * i) 2 }
    {
        words::get(self.bytes, 2 * i, 2)
    }

    // Whether they are strictly ascending.
    pub fn ascending(&self) -> bool
        ensures { (F : Formula) (p C : ℕ) → result ≡ definition.ascending (listed F p C self.now.bytes.now) }
    {
        (1..self.count).all(|i| self.key(i - 1) < self.key(i))
    }

    // Whether all are tickets of a run with c blocks.
    pub fn all_tickets(&self, f: Series, c: u64) -> bool
        ensures { (p : ℕ) → result ≡ all_tickets (limits_of (formula_of f)) c (listed (formula_of f) p c self.now.bytes.now) }
    {
        (0..self.count).all(|i| run::is_ticket(f, c, self.row(i), self.block(i)))
    }
}

// What the refusal table says of a list that has its size: its run, its form and its tickets.
#[tactic(auto, unfolding(run::specs::Refusal::refusal, run::specs::Refusal::answer))]
pub fn test_list(f: Series, run: Run, list: &[u8]) -> Result<(), Refusal>
    requires { list_sized (limits_of (formula_of f)) list.now ≡ true }
    ensures { verdict_of result ≡ tested (of_list (formula_of f) run.p run.c list.now) }
{
    let pairs = Pairs {
        bytes: list,
        count: list.len() / 2,
    };
    if !run::in_range(f, run) {
        return Err(Refusal::OutOfRange);
    }
    if !pairs.ascending() {
        return Err(Refusal::Malformed);
    }
    if !pairs.all_tickets(f, run.c) {
        return Err(Refusal::NoTicket);
    }
    Ok(())
}

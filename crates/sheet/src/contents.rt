// The bytes of a sheet: its count, its entries, and what is asked of them.
ghost use Rattle.std.specs.Prelude.{◌≡◌, ◌+◌, ◌*◌, ◌≤◌, ◌<◌, eqb, length, get_or};
ghost use Rattle.algebra.specs.Test.{all_below};
ghost use Rattle.words.specs.Bytes.{field};
ghost use Rattle.words.specs.Words.{joined};
ghost use Rattle.series.specs.Names.{formula_of};
ghost use Rattle.run.specs.Refusal.{tested};
ghost use Rattle.run.specs.Run.{limits_of};
ghost use Rattle.run.specs.Answers.{verdict_of};
ghost use Rattle.sheet.specs.Sheet.{sheet_most, sheet_pos, sheet_blocks, sheet_count, row_in, block_in, entries_from, all_tickets, well_formed};
ghost use Rattle.sheet.specs.Tests.{sheet_sized, of_sheet};
ghost use Rattle.sheet.specs.Sheet as definition;

use run::{Refusal, Run};
use series::Series;
use words::Wide;

// The most bytes that a sheet can have.
pub fn sheet_most(f: Series) -> usize
    ensures { result ≡ sheet_most (limits_of (formula_of f)) }
{
    16 + 5120 * series::formula::row_count(f)
}

// Whether a sheet has a size that a sheet can have.
#[tactic(auto, unfolding(crate::specs::Tests::sheet_sized))]
pub fn sized(f: Series, s: &[u8]) -> bool
    ensures { result ≡ sheet_sized (limits_of (formula_of f)) s.now }
{
    16 <= s.len() && s.len() <= sheet_most(f)
}

// The bytes of a sheet that has its head.
#[derive(Clone, Copy)]
pub struct Sheet<'a> {
    pub bytes: &'a [u8],
    ghost head: { 16 ≤ length bytes.now },
}

// The first entries of a sheet, as many as `count`, which has room for them.
#[derive(Clone, Copy)]
pub struct Entries<'a> {
    pub bytes: &'a [u8],
    pub count: usize,
    ghost room: { 16 + 4 * count ≤ length bytes.now },
}

// The number in the two bytes from `at` on.
fn two_bytes(s: &[u8], at: usize) -> u64
    requires { at + 2 ≤ length s.now }
    ensures { (result ≡ field s.now at 2) × (result < 65536) }
{
    words::get(s, at, 2)
}

impl<'a> Entries<'a> {
    // The row of entry i.
    #[tactic(auto, unfolding(crate::specs::Sheet::row_in))]
    pub fn row(&self, i: usize) -> u64
        requires { 20 + 4 * i ≤ length self.now.bytes.now }
        ensures { (result ≡ row_in self.now.bytes.now i) × (result < 256) }
    {
        let row = self.bytes[16 + 4 * i];
        row as u64
    }

    // The block of entry i.
    #[tactic(auto, unfolding(crate::specs::Sheet::block_in))]
    pub fn block(&self, i: usize) -> u64
        requires { 20 + 4 * i ≤ length self.now.bytes.now }
        ensures { (result ≡ block_in self.now.bytes.now i) × (result < 65536) }
    {
        two_bytes(self.bytes, 18 + 4 * i)
    }

    // What the entries ascend by.
    pub fn key(&self, i: usize) -> u64
        requires { 20 + 4 * i ≤ length self.now.bytes.now }
        ensures { result ≡ 256 * row_in self.now.bytes.now i + block_in self.now.bytes.now i }
    {
        256 * self.row(i) + self.block(i)
    }

    // The sum of ticket i, where the bodies of all of them are there.
    pub fn body(&self, i: usize) -> Wide
        requires { (i < self.now.count) × (16 + 20 * self.now.count ≤ length self.now.bytes.now) }
        ensures { joined result.hi result.lo ≡ field self.now.bytes.now (16 + 4 * self.now.count + 16 * i) 16 }
    {
        words::get_wide(self.bytes, 16 + 4 * self.count + 16 * i)
    }

    // Whether the zero byte of each is zero.
    pub fn zero_bytes(&self) -> bool
        ensures { result ≡ all_below self.now.count (λ i. eqb (get_or self.now.bytes.now (17 + 4 * i) 0) 0) }
    {
        for i in 0..self.count {
            if self.bytes[17 + 4 * i] != 0 {
                return false;
            }
        }
        true
    }

    // Whether they are strictly ascending.
    pub fn ascending(&self) -> bool
        ensures { result ≡ definition.ascending (entries_from self.now.bytes.now 0 self.now.count) }
    {
        (1..self.count).all(|i| self.key(i - 1) < self.key(i))
    }

    // Whether all are tickets of a run with c blocks.
    pub fn all_tickets(&self, f: Series, c: u64) -> bool
        ensures { result ≡ all_tickets (limits_of (formula_of f)) c (entries_from self.now.bytes.now 0 self.now.count) }
    {
        (0..self.count).all(|i| run::is_ticket(f, c, self.row(i), self.block(i)))
    }
}

impl<'a> Sheet<'a> {
    // Its run.
    #[tactic(auto, unfolding(crate::specs::Sheet::sheet_pos, crate::specs::Sheet::sheet_blocks))]
    pub fn run(&self) -> Run
        ensures { (result.p ≡ sheet_pos self.now.bytes.now) × (result.c ≡ sheet_blocks self.now.bytes.now) }
    {
        Run {
            p: words::get(self.bytes, 0, 8),
            c: words::get(self.bytes, 8, 2),
        }
    }

    // How many tickets the head counts.
    #[tactic(auto, unfolding(crate::specs::Sheet::sheet_count))]
    pub fn count(&self) -> usize
        ensures { (result ≡ sheet_count self.now.bytes.now) × (result < 65536) }
    {
        two_bytes(self.bytes, 10) as usize
    }

    // Whether it has its length, its zero bytes, and ascending contents.
    #[tactic(auto, unfolding(crate::specs::Sheet::well_formed, crate::specs::Sheet::entries))]
    pub fn well_formed(&self) -> bool
        ensures { result ≡ well_formed self.now.bytes.now }
    {
        let count = self.count();
        if self.bytes.len() != 16 + 20 * count {
            return false;
        }
        let entries = Entries {
            bytes: self.bytes,
            count,
        };
        words::get(self.bytes, 12, 4) == 0 && entries.zero_bytes() && entries.ascending()
    }

    // What the refusal table says of it where it has a size that a sheet can have: its run, its form and its tickets.
    #[tactic(auto, unfolding(run::specs::Refusal::refusal, run::specs::Refusal::answer, crate::specs::Sheet::entries))]
    pub fn test_sheet(&self, f: Series) -> Result<(), Refusal>
        ensures { verdict_of result ≡ tested (of_sheet (limits_of (formula_of f)) self.now.bytes.now) }
    {
        let run = self.run();
        if !run::in_range(f, run) {
            return Err(Refusal::OutOfRange);
        }
        if !self.well_formed() {
            return Err(Refusal::Malformed);
        }
        let entries = Entries {
            bytes: self.bytes,
            count: self.count(),
        };
        if !entries.all_tickets(f, run.c) {
            return Err(Refusal::NoTicket);
        }
        Ok(())
    }
}

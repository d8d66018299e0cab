// Runs, blocks and tickets, and the refusal table.
#![tactic(auto)]

ghost use Rattle.std.specs.Prelude.{◌≡◌, ◌^◌, ◌≤◌, ◌<◌};
ghost use Rattle.series.specs.Names.{formula_of};
ghost use Rattle.run.specs.Refusal.{tested};
ghost use Rattle.run.specs.Run.{limits_of, in_range, is_ticket};
ghost use Rattle.run.specs.Run as definition;
ghost use Rattle.run.specs.Tests.{of_ticket};
ghost use Rattle.run.specs.Answers.{number_of, verdict_of};

use series::Series;

// The refusals, in the order of their numbers: those of document 01 from 1 to 9, those of document 02 from 10 on.
#[derive(Clone, Copy)]
pub enum Refusal {
    WrongSize = 1,
    OutOfRange = 2,
    Malformed = 3,
    NoTicket = 4,
    OutOfOrder = 5,
    OtherRun = 6,
    Marked = 7,
    Unmarked = 8,
    Unsettled = 9,
    BadString = 10,
    Apart = 11,
    Different = 12,
    Unposted = 13,
}

// What a call answers: its value (0, or the length, e or d), or a refusal.
pub type Answer = Result<u32, Refusal>;

// The number of a refusal in the table.
pub fn number_of(r: Refusal) -> u64
    ensures { result ≡ number_of r }
{
    r as u64
}

// The first term of block i, where c blocks share `count` terms: floor(i * count / c).
// The product may have 69 bits, so the quotient and the remainder of `count` are taken apart.
pub fn bound(count: u64, c: u64, i: u64) -> u64
    requires { (count < 2 ^ 63) × (1 ≤ c) × (c ≤ 256) × (i ≤ c) }
    ensures { result ≡ definition.bound count c i }
{
    i * (count / c) + i * (count % c) / c
}

// A run: its position, and its number of blocks.
#[derive(Clone, Copy)]
pub struct Run {
    pub p: u64,
    pub c: u64,
}

// Whether a run's position and number of blocks are within their limits.
#[tactic(auto, unfolding(crate::specs::Run::in_range))]
pub fn in_range(f: Series, run: Run) -> bool
    ensures { result ≡ in_range (limits_of (formula_of f)) run.p run.c }
{
    1 <= run.p && run.p <= series::formula::last_position(f) && 1 <= run.c && run.c <= 256
}

// Whether the row and the block are those of a ticket, where there are c blocks.
#[tactic(auto, unfolding(crate::specs::Run::is_ticket))]
pub fn is_ticket(f: Series, c: u64, row: u64, block: u64) -> bool
    ensures { result ≡ is_ticket (limits_of (formula_of f)) c row block }
{
    row < series::formula::row_count(f) as u64 && block < c
}

// A ticket of a run.
#[derive(Clone, Copy)]
pub struct Ticket {
    pub run: Run,
    pub row: u64,
    pub block: u64,
}

// What the refusal table says of a run and one of its tickets.
#[tactic(auto, unfolding(crate::specs::Refusal::refusal, crate::specs::Refusal::answer))]
pub fn test_ticket(f: Series, t: Ticket) -> Result<(), Refusal>
    ensures { verdict_of result ≡ tested (of_ticket (limits_of (formula_of f)) t.run.p t.run.c t.row t.block) }
{
    if !in_range(f, t.run) {
        return Err(Refusal::OutOfRange);
    }
    if !is_ticket(f, t.run.c, t.row, t.block) {
        return Err(Refusal::NoTicket);
    }
    Ok(())
}

// Working a ticket: the sum of a block of a row's terms, or of one half of them, with the squarings that it takes; and a quote of these alone.
#![tactic(auto)]

ghost use Rattle.std.specs.Prelude.{◌≡◌, [], ◌∷◌, true, ◌<◌};
ghost use Rattle.words.specs.Words.{joined};
ghost use Rattle.series.specs.Names.{formula_of};
ghost use Rattle.run.specs.Refusal.{tested};
ghost use Rattle.run.specs.Run.{limits_of, in_range, is_ticket};
ghost use Rattle.run.specs.Answers.{answer_of, verdict_of};
ghost use Rattle.run.specs.Call.{Does};
ghost use Rattle.ticket.specs.Parts.{part_first, part_end, part_sum, part_squarings};
ghost use Rattle.ticket.specs.Work.{is_sized, both_sized, part_tests, work_call, quote_call};

use run::{Answer, Refusal, Ticket};
use series::Series;
use series::place::RowAt;
use series::terms::Worked;
use words::Wide;

// Which of a ticket's terms are worked: all of them, or those below or from the cut on.
#[derive(Clone, Copy)]
pub enum Part {
    Whole,
    Lower,
    Upper,
}

// Terms from `first` up to, not including, `end`. Apart from std's `Range`, which cannot be copied.
#[derive(Clone, Copy)]
pub struct Range {
    pub first: u64,
    pub end: u64,
}

// The terms of a part of a ticket. Both bounds are below 2^63, so their sum fits a word.
pub fn range_of(f: Series, part: Part, t: Ticket) -> Range
    requires { (in_range (limits_of (formula_of f)) t.run.p t.run.c ≡ true) × (t.block < t.run.c) }
    ensures { (result.first ≡ part_first (formula_of f) part t.run.p t.run.c t.block) × (result.end ≡ part_end (formula_of f) part t.run.p t.run.c t.block) }
{
    let count = series::terms::term_count(f, t.run.p);
    let first = run::bound(count, t.run.c, t.block);
    let end = run::bound(count, t.run.c, t.block + 1);
    let cut = (first + end) / 2;
    match part {
        Part::Whole => Range { first, end },
        Part::Lower => Range { first, end: cut },
        Part::Upper => Range { first: cut, end },
    }
}

// The sum of a part of a ticket, and its squarings: of the whole first to last, of a half by halves. Both ways are asked for.
#[tactic(auto, using(run::proofs::Range::position, run::proofs::Range::ticket_row))]
pub fn sum(f: Series, part: Part, t: Ticket) -> Worked
    requires { (in_range (limits_of (formula_of f)) t.run.p t.run.c ≡ true) × (is_ticket (limits_of (formula_of f)) t.run.c t.row t.block ≡ true) }
    ensures { (joined result.sum.hi result.sum.lo ≡ part_sum (formula_of f) part t.run.p t.run.c t.row t.block)
        × (joined result.squarings.hi result.squarings.lo ≡ part_squarings (formula_of f) part t.run.p t.run.c t.row t.block) }
{
    let at = RowAt {
        f,
        p: t.run.p,
        row: t.row,
    };
    let range = range_of(f, part, t);
    match part {
        Part::Whole => series::terms::range_sum(at, range.first, range.end),
        _ => series::halves::range_sum(at, range.first, range.end),
    }
}

// The squarings of a part of a ticket, without its sum.
#[tactic(auto, using(run::proofs::Range::position, run::proofs::Range::ticket_row))]
pub fn squarings(f: Series, part: Part, t: Ticket) -> Wide
    requires { (in_range (limits_of (formula_of f)) t.run.p t.run.c ≡ true) × (is_ticket (limits_of (formula_of f)) t.run.c t.row t.block ≡ true) }
    ensures { joined result.hi result.lo ≡ part_squarings (formula_of f) part t.run.p t.run.c t.row t.block }
{
    let at = RowAt {
        f,
        p: t.run.p,
        row: t.row,
    };
    let range = range_of(f, part, t);
    series::squarings::range_squarings(at, range.first, range.end)
}

// What the refusal table says of working and of quoting: its tests in the order of their numbers.
#[tactic(auto, unfolding(crate::specs::Work::part_tests, run::specs::Refusal::refusal, run::specs::Refusal::answer))]
pub fn test_part(f: Series, t: Ticket, sized: bool) -> Result<(), Refusal>
    ensures { verdict_of result ≡ tested (part_tests (formula_of f) t.run.p t.run.c t.row t.block sized) }
{
    if !sized {
        return Err(Refusal::WrongSize);
    }
    run::test_ticket(f, t)
}

// Whether a slice for a sum or for squarings has its size.
#[tactic(auto, unfolding(crate::specs::Work::is_sized))]
pub fn sized(s: &[u8]) -> bool
    ensures { result ≡ is_sized s.now }
{
    s.len() == 16
}

// Whether both slices of working have theirs.
#[tactic(auto, unfolding(crate::specs::Work::both_sized))]
pub fn both_sized(out: &[u8], squarings: &[u8]) -> bool
    ensures { result ≡ both_sized out.now squarings.now }
{
    sized(out) && sized(squarings)
}

// Works a part of a ticket: writes its sum and its squarings into 16 bytes each. All tests are done before a byte is written.
pub fn work(f: Series, part: Part, t: Ticket, out: &mut [u8], squarings: &mut [u8]) -> Answer
    ensures { Does (work_call (formula_of f) part t.run.p t.run.c t.row t.block out.old squarings.old) (answer_of result)
        (out.new ∷ squarings.new ∷ []) }
{
    test_part(f, t, both_sized(out, squarings))?;
    let worked = sum(f, part, t);
    words::put_wide(out, 0, worked.sum);
    words::put_wide(squarings, 0, worked.squarings);
    Ok(0)
}

// Quotes a part of a ticket: writes its squarings into 16 bytes.
pub fn quote(f: Series, part: Part, t: Ticket, out: &mut [u8]) -> Answer
    ensures { Does (quote_call (formula_of f) part t.run.p t.run.c t.row t.block out.old) (answer_of result) (out.new ∷ []) }
{
    test_part(f, t, sized(out))?;
    words::put_wide(out, 0, squarings(f, part, t));
    Ok(0)
}

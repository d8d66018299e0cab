// Working a ticket, and one half of it: the sum, and the squarings that it took.
ghost use Rattle.std.specs.Prelude.{[], ◌∷◌};
ghost use Rattle.series.specs.Bellard.{bellard};
ghost use Rattle.series.specs.Check.{check};
ghost use Rattle.calls.specs.Request.{Work, Serves};
ghost use Rattle.ticket.specs.declared.Part.TheVariants.{Whole, Lower, Upper};

use crate::answers::to_c;
use run::{Run, Ticket};
use series::Series;
use ticket::Part;

#[unsafe(no_mangle)]
pub extern "C" fn bbp_work(
    p: u64,
    c: u64,
    row: u64,
    block: u64,
    sum: &mut [u8],
    squarings: &mut [u8],
) -> i64
    ensures { Serves bellard (Work Whole p c row block sum.old squarings.old) result
        (sum.new ∷ squarings.new ∷ []) [] }
{
    let run = Run { p, c };
    let t = Ticket { run, row, block };
    to_c(ticket::work(Series::Bellard, Part::Whole, t, sum, squarings))
}

#[unsafe(no_mangle)]
pub extern "C" fn bbp_check_work(
    p: u64,
    c: u64,
    row: u64,
    block: u64,
    sum: &mut [u8],
    squarings: &mut [u8],
) -> i64
    ensures { Serves check (Work Whole p c row block sum.old squarings.old) result
        (sum.new ∷ squarings.new ∷ []) [] }
{
    let run = Run { p, c };
    let t = Ticket { run, row, block };
    to_c(ticket::work(Series::Check, Part::Whole, t, sum, squarings))
}

#[unsafe(no_mangle)]
pub extern "C" fn bbp_work_lower(
    p: u64,
    c: u64,
    row: u64,
    block: u64,
    sum: &mut [u8],
    squarings: &mut [u8],
) -> i64
    ensures { Serves bellard (Work Lower p c row block sum.old squarings.old) result
        (sum.new ∷ squarings.new ∷ []) [] }
{
    let run = Run { p, c };
    let t = Ticket { run, row, block };
    to_c(ticket::work(Series::Bellard, Part::Lower, t, sum, squarings))
}

#[unsafe(no_mangle)]
pub extern "C" fn bbp_check_work_lower(
    p: u64,
    c: u64,
    row: u64,
    block: u64,
    sum: &mut [u8],
    squarings: &mut [u8],
) -> i64
    ensures { Serves check (Work Lower p c row block sum.old squarings.old) result
        (sum.new ∷ squarings.new ∷ []) [] }
{
    let run = Run { p, c };
    let t = Ticket { run, row, block };
    to_c(ticket::work(Series::Check, Part::Lower, t, sum, squarings))
}

#[unsafe(no_mangle)]
pub extern "C" fn bbp_work_upper(
    p: u64,
    c: u64,
    row: u64,
    block: u64,
    sum: &mut [u8],
    squarings: &mut [u8],
) -> i64
    ensures { Serves bellard (Work Upper p c row block sum.old squarings.old) result
        (sum.new ∷ squarings.new ∷ []) [] }
{
    let run = Run { p, c };
    let t = Ticket { run, row, block };
    to_c(ticket::work(Series::Bellard, Part::Upper, t, sum, squarings))
}

#[unsafe(no_mangle)]
pub extern "C" fn bbp_check_work_upper(
    p: u64,
    c: u64,
    row: u64,
    block: u64,
    sum: &mut [u8],
    squarings: &mut [u8],
) -> i64
    ensures { Serves check (Work Upper p c row block sum.old squarings.old) result
        (sum.new ∷ squarings.new ∷ []) [] }
{
    let run = Run { p, c };
    let t = Ticket { run, row, block };
    to_c(ticket::work(Series::Check, Part::Upper, t, sum, squarings))
}

// Quotes: the squarings that working a ticket, or one half of it, takes.
ghost use Rattle.std.specs.Prelude.{[], ◌∷◌};
ghost use Rattle.series.specs.Bellard.{bellard};
ghost use Rattle.series.specs.Check.{check};
ghost use Rattle.calls.specs.Request.{Quote, Serves};
ghost use Rattle.ticket.specs.declared.Part.TheVariants.{Whole, Lower, Upper};

use crate::answers::to_c;
use run::{Run, Ticket};
use series::Series;
use ticket::Part;

#[unsafe(no_mangle)]
pub extern "C" fn bbp_quote(p: u64, c: u64, row: u64, block: u64, squarings: &mut [u8]) -> i64
    ensures { Serves bellard (Quote Whole p c row block squarings.old) result (squarings.new ∷ []) [] }
{
    let run = Run { p, c };
    let t = Ticket { run, row, block };
    to_c(ticket::quote(Series::Bellard, Part::Whole, t, squarings))
}

#[unsafe(no_mangle)]
pub extern "C" fn bbp_check_quote(p: u64, c: u64, row: u64, block: u64, squarings: &mut [u8]) -> i64
    ensures { Serves check (Quote Whole p c row block squarings.old) result (squarings.new ∷ []) [] }
{
    let run = Run { p, c };
    let t = Ticket { run, row, block };
    to_c(ticket::quote(Series::Check, Part::Whole, t, squarings))
}

#[unsafe(no_mangle)]
pub extern "C" fn bbp_quote_lower(p: u64, c: u64, row: u64, block: u64, squarings: &mut [u8]) -> i64
    ensures { Serves bellard (Quote Lower p c row block squarings.old) result (squarings.new ∷ []) [] }
{
    let run = Run { p, c };
    let t = Ticket { run, row, block };
    to_c(ticket::quote(Series::Bellard, Part::Lower, t, squarings))
}

#[unsafe(no_mangle)]
pub extern "C" fn bbp_check_quote_lower(
    p: u64,
    c: u64,
    row: u64,
    block: u64,
    squarings: &mut [u8],
) -> i64
    ensures { Serves check (Quote Lower p c row block squarings.old) result (squarings.new ∷ []) [] }
{
    let run = Run { p, c };
    let t = Ticket { run, row, block };
    to_c(ticket::quote(Series::Check, Part::Lower, t, squarings))
}

#[unsafe(no_mangle)]
pub extern "C" fn bbp_quote_upper(p: u64, c: u64, row: u64, block: u64, squarings: &mut [u8]) -> i64
    ensures { Serves bellard (Quote Upper p c row block squarings.old) result (squarings.new ∷ []) [] }
{
    let run = Run { p, c };
    let t = Ticket { run, row, block };
    to_c(ticket::quote(Series::Bellard, Part::Upper, t, squarings))
}

#[unsafe(no_mangle)]
pub extern "C" fn bbp_check_quote_upper(
    p: u64,
    c: u64,
    row: u64,
    block: u64,
    squarings: &mut [u8],
) -> i64
    ensures { Serves check (Quote Upper p c row block squarings.old) result (squarings.new ∷ []) [] }
{
    let run = Run { p, c };
    let t = Ticket { run, row, block };
    to_c(ticket::quote(Series::Check, Part::Upper, t, squarings))
}

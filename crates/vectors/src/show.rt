// A line for each figure: what is asked, and what the engine's functions give. What they require is tested before the call; where it does
// not hold, the line has no figure.
use montgomery::Quotient;
use run::{Run, Ticket};
use series::Series;
use series::place::RowAt;
use std::io;
use ticket::Part;

// What stands before the first word of a line, the one place that says it: check runs have names of their own.
fn prefix(f: Series) -> &'static str {
    match f {
        Series::Bellard => "",
        Series::Check => "check-",
    }
}

// A quotient by its two words, and the squarings that it took.
fn counted(rt: &impl Print, q: Quotient) -> io::Result<()> {
    print!(rt; " {:016x}{:016x} {}", q.value.hi, q.value.lo, q.squarings)
}

// K at each position.
#[tactic(auto, using(run::proofs::Range::position))]
pub fn counts(rt: &impl Print, f: Series, positions: &[u64]) -> io::Result<()> {
    for &p in positions {
        print!(rt; "{}count {p}", prefix(f))?;
        if run::in_range(f, Run { p, c: 1 }) {
            print!(rt; " {}", series::terms::term_count(f, p))?;
        }
        rt.println("")?;
    }
    Ok(())
}

// The bounds of block i of c, at position p.
#[tactic(auto, using(run::proofs::Range::position, run::proofs::Range::range_of, series::proofs::Numbers::count_small))]
pub fn blocks(rt: &impl Print, f: Series, table: &[(u64, u64, u64)]) -> io::Result<()> {
    for &(p, c, i) in table {
        print!(rt; "{}block {p} {c} {i}", prefix(f))?;
        if run::in_range(f, Run { p, c }) && i < c {
            let count = series::terms::term_count(f, p);
            print!(rt;
                " {} {}",
                run::bound(count, c, i),
                run::bound(count, c, i + 1)
            )?;
        }
        rt.println("")?;
    }
    Ok(())
}

// The sign and the size of term k of a row at position p, and its squarings.
#[tactic(auto, using(run::proofs::Range::position))]
pub fn terms(rt: &impl Print, f: Series, table: &[(u64, u64, u64)]) -> io::Result<()> {
    for &(p, row, k) in table {
        print!(rt; "{}term {p} {row} {k}", prefix(f))?;
        if run::in_range(f, Run { p, c: 1 })
            && row < series::formula::row_count(f) as u64
            && k < series::terms::term_count(f, p)
        {
            let numbers = series::terms::numbers_of(RowAt { f, p, row });
            let added = series::terms::is_added(numbers, k);
            let sign = if added { " +" } else { " -" };
            rt.print(sign)?;
            counted(rt, series::terms::size(numbers, k))?;
        }
        rt.println("")?;
    }
    Ok(())
}

// The whole part of 2^e / n, modulo 2^128, and the squarings that it took.
pub fn quotients(rt: &impl Print, n: u64, exponents: &[u64]) -> io::Result<()> {
    for &e in exponents {
        print!(rt; "quotient {e} {n}")?;
        if e >= 128 && n % 2 == 1 && n < 0x8000_0000_0000_0000 {
            counted(rt, montgomery::quotient_of_power(e, n))?;
        }
        rt.println("")?;
    }
    Ok(())
}

// The 16 bytes of the sum of a part of a ticket and those of its squarings, as they lie, or the refusal.
fn work(
    rt: &impl Print,
    f: Series,
    name: &str,
    part: Part,
    ticket: (u64, u64, u64, u64),
) -> io::Result<()> {
    let (p, c, row, block) = ticket;
    print!(rt; "{}{name} {p} {c} {row} {block}", prefix(f))?;
    let mut sum = [0u8; 16];
    let mut squarings = [0u8; 16];
    let run = Run { p, c };
    let t = Ticket { run, row, block };
    match ticket::work(f, part, t, &mut sum, &mut squarings) {
        Ok(_) => println!(rt;
            " {:032x} {:032x}",
            u128::from_be_bytes(sum),
            u128::from_be_bytes(squarings)
        ),
        Err(r) => println!(rt; " refused {}", run::number_of(r)),
    }
}

// The 16 bytes of the squarings that a part of a ticket takes, without working it, or the refusal.
fn quote(
    rt: &impl Print,
    f: Series,
    name: &str,
    part: Part,
    ticket: (u64, u64, u64, u64),
) -> io::Result<()> {
    let (p, c, row, block) = ticket;
    print!(rt; "{}{name} {p} {c} {row} {block}", prefix(f))?;
    let mut squarings = [0u8; 16];
    let run = Run { p, c };
    let t = Ticket { run, row, block };
    match ticket::quote(f, part, t, &mut squarings) {
        Ok(_) => println!(rt; " {:032x}", u128::from_be_bytes(squarings)),
        Err(r) => println!(rt; " refused {}", run::number_of(r)),
    }
}

// Tickets, each worked as a whole.
pub fn tickets(rt: &impl Print, f: Series, table: &[(u64, u64, u64, u64)]) -> io::Result<()> {
    for &t in table {
        work(rt, f, "ticket", Part::Whole, t)?;
    }
    Ok(())
}

// The halves of tickets, the lower one first.
pub fn halves(rt: &impl Print, f: Series, table: &[(u64, u64, u64, u64)]) -> io::Result<()> {
    for &t in table {
        work(rt, f, "lower", Part::Lower, t)?;
        work(rt, f, "upper", Part::Upper, t)?;
    }
    Ok(())
}

// What tickets and their halves are quoted at.
pub fn quotes(rt: &impl Print, f: Series, table: &[(u64, u64, u64, u64)]) -> io::Result<()> {
    for &t in table {
        quote(rt, f, "quote", Part::Whole, t)?;
        quote(rt, f, "quote-lower", Part::Lower, t)?;
        quote(rt, f, "quote-upper", Part::Upper, t)?;
    }
    Ok(())
}

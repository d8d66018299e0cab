// Prints figures of terms, blocks and tickets, one to a line: those of Bellard's formula, then those of check runs. What it must print was
// worked out by another program, from documents 01 and 02 alone.
#![tactic(auto)]

mod checks;
mod show;

use series::Series;
use std::io;

// The last position of a run by Bellard's formula.
const LAST: u64 = 1152921504606846976;

// The figures of document 01 on terms: p, the row and k.
const FIGURES: [(u64, u64, u64); 10] = [
    (1, 0, 0),
    (1, 2, 0),
    (1, 3, 0),
    (1, 4, 0),
    (3, 4, 0),
    (1, 2, 11),
    (1, 2, 12),
    (1, 2, 13),
    (1, 0, 12),
    (1, 0, 13),
];

// K, the number of terms.
const COUNTS: [u64; 14] = [
    1, 2, 3, 4, 5, 6, 7, 17, 100, 1000, 1000000, 10000000, 100000000, LAST,
];

// Blocks of 14 terms: empty ones, the first and the last, and as many blocks as terms. Here and below p, c and i.
const BLOCKS: [(u64, u64, u64); 14] = [
    (1, 256, 0),
    (1, 256, 1),
    (1, 256, 17),
    (1, 256, 18),
    (1, 256, 19),
    (1, 256, 254),
    (1, 256, 255),
    (1, 1, 0),
    (1, 14, 0),
    (1, 14, 13),
    (1, 13, 0),
    (1, 13, 12),
    (1, 15, 0),
    (1, 15, 14),
];

// Blocks whose ends take a product of more than 64 bits.
const WIDE_BLOCKS: [(u64, u64, u64); 14] = [
    (LAST, 256, 0),
    (LAST, 256, 1),
    (LAST, 256, 128),
    (LAST, 256, 254),
    (LAST, 256, 255),
    (LAST, 255, 0),
    (LAST, 255, 127),
    (LAST, 255, 254),
    (LAST, 3, 0),
    (LAST, 3, 1),
    (LAST, 3, 2),
    (LAST, 2, 0),
    (LAST, 2, 1),
    (LAST, 1, 0),
];

// N = 1, where every remainder is 0, and N = 7, which shows a power that starts at a plain 2.
const DIVISORS: [(u64, u64, u64); 10] = [
    (2, 0, 0),
    (2, 2, 0),
    (17, 0, 0),
    (17, 2, 0),
    (1, 1, 1),
    (1, 5, 0),
    (2, 5, 0),
    (3, 5, 0),
    (17, 1, 1),
    (17, 5, 0),
];

// E about 0, at even and at odd k.
const SMALL_EXPONENTS: [(u64, u64, u64); 11] = [
    (396, 0, 171),
    (5, 1, 14),
    (395, 1, 170),
    (4, 0, 14),
    (399, 0, 172),
    (3, 1, 13),
    (398, 1, 171),
    (1, 2, 13),
    (2, 0, 13),
    (1, 1, 12),
    (4, 2, 14),
];

// E about 64, 128 and 192.
const WORD_EXPONENTS: [(u64, u64, u64); 16] = [
    (5, 0, 8),
    (4, 1, 7),
    (3, 0, 7),
    (2, 1, 0),
    (1, 0, 0),
    (396, 0, 158),
    (5, 1, 1),
    (395, 1, 157),
    (3, 2, 1),
    (398, 2, 159),
    (4, 0, 1),
    (399, 0, 159),
    (3, 1, 0),
    (397, 0, 152),
    (396, 1, 151),
    (395, 0, 151),
];

// Terms in the middle of rows at large positions.
const FAR_TERMS: [(u64, u64, u64); 10] = [
    (LAST, 0, 328123690831426037),
    (LAST, 1, 438664983666283899),
    (LAST, 2, 121030708615038486),
    (LAST, 3, 350164162901037702),
    (LAST, 4, 153529114056516909),
    (LAST, 5, 182985728308015929),
    (LAST, 6, 5306284095701534),
    (LAST - 1, 3, 417149488865956656),
    (100000000000000000, 5, 27647748185925441),
    (1000000000, 6, 123268261),
];

// Terms at the last position: of each row the first, three about E = 128, and the last two, where N may be above 2^62.
const LAST_POSITION: [(u64, u64, u64); 42] = [
    (LAST, 0, 0),
    (LAST, 0, 461168601842738788),
    (LAST, 0, 461168601842738789),
    (LAST, 0, 461168601842738790),
    (LAST, 0, 461168601842738802),
    (LAST, 0, 461168601842738803),
    (LAST, 1, 0),
    (LAST, 1, 461168601842738788),
    (LAST, 1, 461168601842738789),
    (LAST, 1, 461168601842738790),
    (LAST, 1, 461168601842738802),
    (LAST, 1, 461168601842738803),
    (LAST, 2, 0),
    (LAST, 2, 461168601842738789),
    (LAST, 2, 461168601842738790),
    (LAST, 2, 461168601842738791),
    (LAST, 2, 461168601842738802),
    (LAST, 2, 461168601842738803),
    (LAST, 3, 0),
    (LAST, 3, 461168601842738789),
    (LAST, 3, 461168601842738790),
    (LAST, 3, 461168601842738791),
    (LAST, 3, 461168601842738802),
    (LAST, 3, 461168601842738803),
    (LAST, 4, 0),
    (LAST, 4, 461168601842738788),
    (LAST, 4, 461168601842738789),
    (LAST, 4, 461168601842738790),
    (LAST, 4, 461168601842738802),
    (LAST, 4, 461168601842738803),
    (LAST, 5, 0),
    (LAST, 5, 461168601842738788),
    (LAST, 5, 461168601842738789),
    (LAST, 5, 461168601842738790),
    (LAST, 5, 461168601842738802),
    (LAST, 5, 461168601842738803),
    (LAST, 6, 0),
    (LAST, 6, 461168601842738788),
    (LAST, 6, 461168601842738789),
    (LAST, 6, 461168601842738790),
    (LAST, 6, 461168601842738802),
    (LAST, 6, 461168601842738803),
];

// The exponents of quotients: E - 64 is all ones, twice, then ones and zeros in turn; then the last E.
const EXPONENTS: [u64; 4] = [
    191,
    4611686018427387967,
    12297829382473034474,
    18446744073709551615,
];

// Their N: 1, then above 2^62, and up to 2^63 - 1.
const MODULI: [u64; 6] = [
    1,
    4611686018427388039,
    7822362180758744021,
    8876332990933519967,
    9223372036854775783,
    9223372036854775807,
];

// Tickets at position 1: whole rows, empty blocks, blocks of one term. Here and below p, c, the row and the block.
const WHOLE_ROWS: [(u64, u64, u64, u64); 13] = [
    (1, 1, 0, 0),
    (1, 1, 1, 0),
    (1, 1, 2, 0),
    (1, 1, 3, 0),
    (1, 1, 4, 0),
    (1, 1, 5, 0),
    (1, 1, 6, 0),
    (1, 256, 0, 0),
    (1, 256, 0, 18),
    (1, 256, 0, 255),
    (1, 256, 2, 18),
    (1, 256, 5, 18),
    (1, 256, 6, 128),
];

// Tickets at other positions, first and last blocks among them.
const TICKETS: [(u64, u64, u64, u64); 14] = [
    (2, 3, 0, 0),
    (2, 3, 6, 2),
    (3, 1, 3, 0),
    (3, 1, 5, 0),
    (4, 3, 3, 0),
    (4, 3, 5, 2),
    (17, 3, 4, 2),
    (17, 3, 6, 2),
    (100, 3, 6, 0),
    (100, 3, 6, 0),
    (1000, 256, 1, 255),
    (1000, 256, 4, 255),
    (12345, 256, 4, 255),
    (12345, 256, 6, 255),
];

// Numbers that are no run or no ticket.
const REFUSALS: [(u64, u64, u64, u64); 6] = [
    (0, 1, 0, 0),
    (LAST + 1, 1, 0, 0),
    (1, 0, 0, 0),
    (1, 257, 0, 0),
    (1, 1, 0, 1),
    (1, 1, 7, 0),
];

// Halves: of whole rows, of empty blocks and of one term, and at other positions.
const HALVES: [(u64, u64, u64, u64); 22] = [
    (1, 1, 0, 0),
    (1, 1, 2, 0),
    (1, 1, 6, 0),
    (1, 3, 0, 1),
    (1, 3, 5, 2),
    (1, 256, 0, 0),
    (1, 256, 0, 18),
    (1, 256, 6, 255),
    (3, 1, 0, 0),
    (3, 7, 0, 6),
    (4, 1, 0, 0),
    (4, 7, 0, 6),
    (17, 1, 0, 0),
    (17, 7, 0, 6),
    (100, 1, 0, 0),
    (100, 7, 0, 6),
    (1000, 1, 0, 0),
    (1000, 7, 0, 3),
    (12345, 1, 0, 0),
    (12345, 7, 0, 3),
    (100000, 256, 0, 0),
    (100000, 256, 3, 17),
];

// Halves of what is no run or no ticket.
const REFUSED_HALVES: [(u64, u64, u64, u64); 4] = [
    (0, 1, 0, 0),
    (1, 257, 7, 0),
    (1, 1, 0, 1),
    (1, 1, 7, 0),
];

// Quotes: where few terms have an E of 128 or more, and about E - 64 = 2^40.
const QUOTES: [(u64, u64, u64, u64); 18] = [
    (1, 1, 0, 0),
    (1, 1, 2, 0),
    (1, 1, 3, 0),
    (1, 256, 0, 0),
    (1, 256, 2, 18),
    (2, 3, 2, 0),
    (17, 1, 0, 0),
    (17, 1, 3, 0),
    (1000, 7, 4, 3),
    (12345, 256, 6, 255),
    (274877906928, 1, 3, 0),
    (274877906929, 1, 3, 0),
    (274877906929, 256, 3, 0),
    (0, 1, 0, 0),
    (LAST + 1, 1, 0, 0),
    (1, 257, 7, 0),
    (1, 1, 7, 0),
    (1, 1, 0, 1),
];

// Quotes at the last position, where a row takes more squarings than a word holds.
const FAR_QUOTES: [(u64, u64, u64, u64); 14] = [
    (LAST, 1, 0, 0),
    (LAST, 1, 1, 0),
    (LAST, 1, 2, 0),
    (LAST, 1, 3, 0),
    (LAST, 1, 4, 0),
    (LAST, 1, 5, 0),
    (LAST, 1, 6, 0),
    (LAST, 2, 0, 1),
    (LAST, 3, 2, 1),
    (LAST, 255, 4, 127),
    (LAST, 256, 2, 0),
    (LAST, 256, 3, 191),
    (LAST, 256, 6, 255),
    (LAST - 1, 1, 2, 0),
];

fn quotients(rt: &impl Print) -> io::Result<()> {
    for n in MODULI {
        show::quotients(rt, n, &EXPONENTS)?;
    }
    Ok(())
}

fn main(rt: HostRuntime) -> io::Result<()> {
    let f = Series::Bellard;
    show::terms(&rt, f, &FIGURES)?;
    show::counts(&rt, f, &COUNTS)?;
    show::blocks(&rt, f, &BLOCKS)?;
    show::blocks(&rt, f, &WIDE_BLOCKS)?;
    show::terms(&rt, f, &DIVISORS)?;
    show::terms(&rt, f, &SMALL_EXPONENTS)?;
    show::terms(&rt, f, &WORD_EXPONENTS)?;
    show::terms(&rt, f, &FAR_TERMS)?;
    show::terms(&rt, f, &LAST_POSITION)?;
    quotients(&rt)?;
    show::tickets(&rt, f, &WHOLE_ROWS)?;
    show::tickets(&rt, f, &TICKETS)?;
    show::tickets(&rt, f, &REFUSALS)?;
    show::halves(&rt, f, &HALVES)?;
    show::halves(&rt, f, &REFUSED_HALVES)?;
    show::quotes(&rt, f, &QUOTES)?;
    show::quotes(&rt, f, &FAR_QUOTES)?;
    checks::all(&rt)
}

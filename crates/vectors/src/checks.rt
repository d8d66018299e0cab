// The figures of check runs.
use crate::show;
use series::Series;
use std::io;

// The last position of a check run.
const LAST: u64 = 576460752303423488;

// K, the number of terms.
const COUNTS: [u64; 6] = [1, 2, 3, 17, 1000000, LAST];

// The ends of blocks: of 33 terms, and of so many that a product takes more than 64 bits.
const BLOCKS: [(u64, u64, u64); 13] = [
    (1, 256, 0),
    (1, 256, 7),
    (1, 256, 255),
    (1, 1, 0),
    (1, 33, 32),
    (1, 32, 31),
    (1, 34, 0),
    (LAST, 256, 0),
    (LAST, 256, 128),
    (LAST, 256, 255),
    (LAST, 255, 127),
    (LAST, 3, 1),
    (LAST, 1, 0),
];

// The first terms, with N = 1 in rows 0 and 1, and odd terms, which keep the row's sign.
const FIRST_TERMS: [(u64, u64, u64); 12] = [
    (1, 0, 0),
    (1, 1, 0),
    (1, 2, 0),
    (1, 3, 0),
    (1, 0, 1),
    (1, 1, 1),
    (1, 2, 1),
    (1, 3, 1),
    (2, 0, 0),
    (17, 1, 0),
    (17, 0, 3),
    (17, 3, 2),
];

// E about 0, 64, 128 and 192.
const EXPONENTS: [(u64, u64, u64); 23] = [
    (1, 1, 32),
    (1, 3, 32),
    (1, 2, 32),
    (1, 0, 32),
    (1, 1, 31),
    (1, 3, 31),
    (1, 1, 16),
    (1, 3, 16),
    (1, 2, 16),
    (1, 0, 16),
    (1, 1, 15),
    (1, 3, 15),
    (1, 1, 0),
    (1, 3, 0),
    (1, 2, 0),
    (1, 0, 1),
    (1, 0, 0),
    (2, 1, 0),
    (2, 3, 0),
    (20, 1, 3),
    (20, 3, 3),
    (20, 2, 3),
    (20, 0, 3),
];

// Terms at the last position: of each row the first, two about E = 128, and the last two; N comes to about 2^62 in rows 0 and 2.
const LAST_POSITION: [(u64, u64, u64); 20] = [
    (LAST, 0, 0),
    (LAST, 0, 576460752303423487),
    (LAST, 0, 576460752303423488),
    (LAST, 0, 576460752303423518),
    (LAST, 0, 576460752303423519),
    (LAST, 1, 0),
    (LAST, 1, 576460752303423486),
    (LAST, 1, 576460752303423487),
    (LAST, 1, 576460752303423518),
    (LAST, 1, 576460752303423519),
    (LAST, 2, 0),
    (LAST, 2, 576460752303423487),
    (LAST, 2, 576460752303423488),
    (LAST, 2, 576460752303423518),
    (LAST, 2, 576460752303423519),
    (LAST, 3, 0),
    (LAST, 3, 576460752303423486),
    (LAST, 3, 576460752303423487),
    (LAST, 3, 576460752303423518),
    (LAST, 3, 576460752303423519),
];

// Terms in the middle of rows at large positions.
const FAR_TERMS: [(u64, u64, u64); 8] = [
    (LAST, 0, 349679466406847959),
    (LAST, 1, 552109199969227433),
    (LAST, 2, 103878513478353754),
    (LAST, 3, 22847650047402545),
    (LAST - 1, 1, 333627522988055049),
    (100000000000000000, 3, 8480755514716760),
    (1000000000, 0, 238293563),
    (1000000, 2, 545615),
];

// Tickets: whole rows, empty blocks, blocks of one term; other positions.
const TICKETS: [(u64, u64, u64, u64); 14] = [
    (1, 1, 0, 0),
    (1, 1, 1, 0),
    (1, 1, 2, 0),
    (1, 1, 3, 0),
    (1, 256, 0, 0),
    (1, 256, 1, 7),
    (1, 256, 3, 255),
    (2, 3, 0, 0),
    (3, 3, 2, 1),
    (4, 3, 3, 2),
    (17, 7, 1, 6),
    (100, 3, 2, 0),
    (1000, 256, 1, 255),
    (12345, 256, 0, 128),
];

// Halves: of whole rows, of an empty block and of one term, and at other positions.
const HALVES: [(u64, u64, u64, u64); 10] = [
    (1, 1, 0, 0),
    (1, 1, 1, 0),
    (1, 1, 2, 0),
    (1, 1, 3, 0),
    (1, 256, 0, 0),
    (1, 256, 2, 7),
    (1, 3, 1, 1),
    (17, 7, 3, 6),
    (1000, 7, 0, 3),
    (12345, 7, 1, 3),
];

// Numbers that are no check run or no ticket of one.
const REFUSALS: [(u64, u64, u64, u64); 7] = [
    (0, 1, 0, 0),
    (LAST + 1, 1, 0, 0),
    (1152921504606846976, 1, 0, 0),
    (1, 257, 0, 0),
    (1, 1, 4, 0),
    (1, 1, 6, 0),
    (1, 1, 0, 1),
];

// Halves of the like.
const REFUSED_HALVES: [(u64, u64, u64, u64); 2] = [(LAST + 1, 1, 0, 0), (1, 1, 4, 0)];

// Quotes, the last position among them.
const QUOTES: [(u64, u64, u64, u64); 14] = [
    (1, 1, 0, 0),
    (1, 1, 1, 0),
    (1, 256, 2, 7),
    (17, 7, 1, 0),
    (12345, 7, 3, 3),
    (LAST, 1, 0, 0),
    (LAST, 1, 1, 0),
    (LAST, 1, 2, 0),
    (LAST, 1, 3, 0),
    (LAST, 256, 0, 0),
    (LAST, 256, 1, 128),
    (LAST, 256, 3, 255),
    (LAST + 1, 1, 0, 0),
    (1, 1, 4, 0),
];

pub fn all(rt: &impl Print) -> io::Result<()> {
    let f = Series::Check;
    show::counts(rt, f, &COUNTS)?;
    show::blocks(rt, f, &BLOCKS)?;
    show::terms(rt, f, &FIRST_TERMS)?;
    show::terms(rt, f, &EXPONENTS)?;
    show::terms(rt, f, &LAST_POSITION)?;
    show::terms(rt, f, &FAR_TERMS)?;
    show::tickets(rt, f, &TICKETS)?;
    show::halves(rt, f, &HALVES)?;
    show::tickets(rt, f, &REFUSALS)?;
    show::halves(rt, f, &REFUSED_HALVES)?;
    show::quotes(rt, f, &QUOTES)
}

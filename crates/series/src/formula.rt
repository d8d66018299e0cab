// What a formula sets: its rows, how many there are, the last position, by how much E falls, and whether signs alternate. No other file asks
// which formula it is.
ghost use Rattle.std.specs.Prelude.{◌≡◌, ◌<◌, ◌≤◌, map};
ghost use Rattle.series.specs.Series.{row_count, row_at};
ghost use Rattle.series.specs.Names.{formula_of, row_of};

use crate::Series;

// The numbers of a row: m, j, 128 + l, and whether its sign is +.
#[derive(Clone, Copy)]
pub struct Row {
    pub m: u64,
    pub j: u64,
    pub lead: u64,
    pub added: bool,
}

// What a formula sets: its rows, by how much E falls from one term to the next, whether the signs of a row alternate, and the last position of
// a run.
#[derive(Clone, Copy)]
pub struct Formula {
    pub rows: &'static [Row],
    pub step: u64,
    pub alternates: bool,
    pub last: u64,
}

const BELLARD_ROWS: [Row; 7] = [
    Row {
        m: 4,
        j: 1,
        lead: 127,
        added: false,
    },
    Row {
        m: 4,
        j: 3,
        lead: 122,
        added: false,
    },
    Row {
        m: 10,
        j: 1,
        lead: 130,
        added: true,
    },
    Row {
        m: 10,
        j: 3,
        lead: 128,
        added: false,
    },
    Row {
        m: 10,
        j: 5,
        lead: 124,
        added: false,
    },
    Row {
        m: 10,
        j: 7,
        lead: 124,
        added: false,
    },
    Row {
        m: 10,
        j: 9,
        lead: 122,
        added: true,
    },
];

const BELLARD: Formula = Formula {
    rows: &BELLARD_ROWS,
    step: 10,
    alternates: true,
    last: 1152921504606846976,
};

const CHECK_ROWS: [Row; 4] = [
    Row {
        m: 8,
        j: 1,
        lead: 130,
        added: true,
    },
    Row {
        m: 2,
        j: 1,
        lead: 127,
        added: false,
    },
    Row {
        m: 8,
        j: 5,
        lead: 128,
        added: false,
    },
    Row {
        m: 4,
        j: 3,
        lead: 127,
        added: false,
    },
];

const CHECK: Formula = Formula {
    rows: &CHECK_ROWS,
    step: 4,
    alternates: false,
    last: 576460752303423488,
};

// The formula that a name stands for.
pub fn formula_of(f: Series) -> Formula
    ensures rows { map row_of result.rows.now ≡ (formula_of f).rows }
    ensures step { result.step ≡ (formula_of f).step }
    ensures alternates { result.alternates ≡ (formula_of f).alternates }
    ensures last { result.last ≡ (formula_of f).last }
{
    match f {
        Series::Bellard => BELLARD,
        Series::Check => CHECK,
    }
}

// How many rows there are.
pub fn row_count(f: Series) -> usize
    ensures counts { result ≡ row_count (formula_of f) }
    ensures few { result ≤ 7 }
{
    formula_of(f).rows.len()
}

// The last position of a run.
pub fn last_position(f: Series) -> u64
    ensures { result ≡ (formula_of f).last }
{
    formula_of(f).last
}

// By how much E falls from one term to the next.
pub fn step(f: Series) -> u64
    ensures { result ≡ (formula_of f).step }
{
    formula_of(f).step
}

// Whether the signs of a row alternate.
pub fn alternates(f: Series) -> bool
    ensures { result ≡ (formula_of f).alternates }
{
    formula_of(f).alternates
}

// Row r of a formula.
pub fn row_at(f: Series, r: u64) -> Row
    requires { r < row_count (formula_of f) }
    ensures { row_of result ≡ row_at (formula_of f) r }
{
    formula_of(f).rows[r as usize]
}

// A row of a formula at a position.
ghost use Rattle.std.specs.Prelude.{◌<◌};
ghost use Rattle.series.specs.Series.{row_count};
ghost use Rattle.series.specs.Names.{formula_of};
ghost use Rattle.series.specs.Fitting.{Position};

use crate::Series;

// The formula, a position of its range, and one of its rows.
#[derive(Clone, Copy)]
pub struct RowAt {
    pub f: Series,
    pub p: u64,
    pub row: u64,
    ghost there: { Position (formula_of f) p × (row < row_count (formula_of f)) },
}

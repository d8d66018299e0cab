// The terms of a row up to an end, all of which can be worked.
ghost use Rattle.series.specs.Fitting.{Workable};

use crate::terms::Numbers;

// The numbers of the row, and the end.
#[derive(Clone, Copy)]
pub struct Terms {
    pub numbers: Numbers,
    pub end: u64,
    ghost workable: { Workable numbers end },
}

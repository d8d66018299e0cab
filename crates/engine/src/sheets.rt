// Writing and reading a sheet.
ghost use Rattle.std.specs.Prelude.{[], ◌∷◌};
ghost use Rattle.series.specs.Bellard.{bellard};
ghost use Rattle.series.specs.Check.{check};
ghost use Rattle.calls.specs.Request.{WriteSheet, ReadSheet, Serves};

use crate::answers::to_c;
use run::Run;
use series::Series;

#[unsafe(no_mangle)]
pub extern "C" fn bbp_sheet_write(p: u64, c: u64, list: &[u8], sheet: &mut [u8]) -> i64
    ensures { Serves bellard (WriteSheet p c list.now sheet.old) result (sheet.new ∷ []) (list.now ∷ []) }
{
    to_c(writer::write(Series::Bellard, Run { p, c }, list, sheet))
}

#[unsafe(no_mangle)]
pub extern "C" fn bbp_check_sheet_write(p: u64, c: u64, list: &[u8], sheet: &mut [u8]) -> i64
    ensures { Serves check (WriteSheet p c list.now sheet.old) result (sheet.new ∷ []) (list.now ∷ []) }
{
    to_c(writer::write(Series::Check, Run { p, c }, list, sheet))
}

#[unsafe(no_mangle)]
pub extern "C" fn bbp_sheet_read(sheet: &[u8], list: &mut [u8], sums: &mut [u8]) -> i64
    ensures { Serves bellard (ReadSheet sheet.now list.old sums.old) result
        (list.new ∷ sums.new ∷ []) (sheet.now ∷ []) }
{
    to_c(sheet::reading::read(Series::Bellard, sheet, list, sums))
}

#[unsafe(no_mangle)]
pub extern "C" fn bbp_check_sheet_read(sheet: &[u8], list: &mut [u8], sums: &mut [u8]) -> i64
    ensures { Serves check (ReadSheet sheet.now list.old sums.old) result
        (list.new ∷ sums.new ∷ []) (sheet.now ∷ []) }
{
    to_c(sheet::reading::read(Series::Check, sheet, list, sums))
}

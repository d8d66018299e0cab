// Closing a ledger.
ghost use Rattle.std.specs.Prelude.{[], ◌∷◌};
ghost use Rattle.series.specs.Bellard.{bellard};
ghost use Rattle.series.specs.Check.{check};
ghost use Rattle.calls.specs.Request.{Close, Serves};

use crate::answers::to_c;
use series::Series;

#[unsafe(no_mangle)]
pub extern "C" fn bbp_close(ledger: &[u8], digits: &mut [u8]) -> i64
    ensures { Serves bellard (Close ledger.now digits.old) result (digits.new ∷ []) (ledger.now ∷ []) }
{
    to_c(closing::close(Series::Bellard, ledger, digits))
}

#[unsafe(no_mangle)]
pub extern "C" fn bbp_check_close(ledger: &[u8], digits: &mut [u8]) -> i64
    ensures { Serves check (Close ledger.now digits.old) result (digits.new ∷ []) (ledger.now ∷ []) }
{
    to_c(closing::close(Series::Check, ledger, digits))
}

// Two strings of digits laid over each other. They are of no formula; the requests are named with Bellard's.
ghost use Rattle.std.specs.Prelude.{[], ◌∷◌};
ghost use Rattle.series.specs.Bellard.{bellard};
ghost use Rattle.calls.specs.Request.{Overlap, OverlapPart, Serves};

use crate::answers::to_c;
use overlap::Laid;

#[unsafe(no_mangle)]
pub extern "C" fn bbp_overlap(first: &[u8], first_p: u64, second: &[u8], second_p: u64) -> i64
    ensures { Serves bellard (Overlap first.now first_p second.now second_p) result []
        (first.now ∷ second.now ∷ []) }
{
    let first = Laid {
        digits: first,
        from: first_p,
    };
    let second = Laid {
        digits: second,
        from: second_p,
    };
    to_c(overlap::test_overlap(&first, &second))
}

#[unsafe(no_mangle)]
pub extern "C" fn bbp_overlap_part<'a>(
    first: &'a [u8],
    first_p: u64,
    second: &'a [u8],
    second_p: u64,
    part: &mut [u8],
) -> i64
    ensures { Serves bellard (OverlapPart first.now first_p second.now second_p part.old) result
        (part.new ∷ []) (first.now ∷ second.now ∷ []) }
{
    let first = Laid {
        digits: first,
        from: first_p,
    };
    let second = Laid {
        digits: second,
        from: second_p,
    };
    to_c(overlap::overlap_part(&first, &second, part))
}

// How a sheet is laid out: its head, then the contents with four bytes for each ticket, then the bodies with sixteen.
ghost use Rattle.std.specs.Prelude.{◌≡◌, ◌++◌, ℕ, ◌+◌, ◌*◌, ◌≤◌, ◌<◌, length, take, drop};
ghost use Rattle.words.specs.Bytes.{bytes_of};
ghost use Rattle.words.specs.Words.{joined};
ghost use Rattle.series.specs.Series.{Formula};
ghost use Rattle.sheet.specs.Sheet.{listed, line, contents_of};

use crate::lists::Pairs;
use run::Run;
use words::Wide;

// Writes the head of a sheet of e tickets.
pub fn put_head(run: Run, e: u64, out: &mut [u8])
    requires { 16 ≤ length out.old }
    ensures { out.new ≡ bytes_of 8 run.p ++ bytes_of 2 run.c ++ bytes_of 2 e ++ bytes_of 4 0 ++ drop 16 out.old }
{
    words::put(out, 0, 8, run.p);
    words::put(out, 8, 2, run.c);
    words::put(out, 10, 2, e);
    words::put(out, 12, 4, 0);
}

// Writes entry i of the contents: its four bytes are those of row + 65536 * block.
pub fn put_line(out: &mut [u8], i: usize, row: u64, block: u64)
    requires { (row < 256) × (block < 65536) × (20 + 4 * i ≤ length out.old) }
    ensures { out.new ≡ take (16 + 4 * i) out.old ++ line row block ++ drop (16 + 4 * i + 4) out.old }
{
    words::put(out, 16 + 4 * i, 4, row + 65536 * block);
}

// Writes body i of e: the sum of ticket i. The bodies begin past e entries; what is written to may be longer than the sheet.
pub fn put_body(out: &mut [u8], e: usize, i: usize, sum: Wide)
    requires { (i < e) × (16 + 20 * e ≤ length out.old) }
    ensures { out.new
        ≡ take (16 + 4 * e + 16 * i) out.old ++ bytes_of 16 (joined sum.hi sum.lo) ++ drop (16 + 4 * e + 16 * i + 16) out.old }
{
    words::put_wide(out, 16 + 4 * e + 16 * i, sum);
}

// Writes the contents of a list.
pub fn put_contents(pairs: &Pairs, out: &mut [u8])
    requires { 16 + 4 * pairs.now.count ≤ length out.old }
    ensures { (F : Formula) (p C : ℕ) → out.new
        ≡ take 16 out.old ++ contents_of (listed F p C pairs.now.bytes.now) ++ drop (16 + 4 * pairs.now.count) out.old }
{
    for i in 0..pairs.count {
        put_line(out, i, pairs.row(i), pairs.block(i));
    }
}

// The line that the closing program prints for a ledger, built in a buffer: its contract has the bytes, which those of a stream have not.
#![tactic(auto)]

ghost use Rattle.std.specs.Prelude.{◌≡◌, ◌+◌, ◌≤◌, ◌<◌, length, take};
ghost use Rattle.io.specs.Counts.{IsPrefixLen};
ghost use Rattle.series.specs.Names.{formula_of};
ghost use Rattle.closing_line.specs.Decimal.{decimal};
ghost use Rattle.closing_line.specs.Line.{Added, word, finished_line, refused_line, printed_line};

use series::Series;

// Room for a line: two numbers of 20 digits, 32 digits, and the byte that ends each.
pub const LONGEST: usize = 75;

// Writes a word from `at` on, and the byte that ends it. The answer is where the next word starts.
pub fn put_word(out: &mut [u8], at: usize, text: &[u8], end: u8) -> usize
    requires { at + length text.now < length out.old }
    ensures { Added out.old at (word text.now end) out.new result }
{
    let last = at + text.len();
    out[at..last].copy_from_slice(text);
    out[last] = end;
    last + 1
}

// The same for a number, in decimal.
pub fn put_number(out: &mut [u8], at: usize, x: u64, end: u8) -> usize
    requires { at + 20 < length out.old }
    ensures few { result ≤ at + 21 }
    ensures adds { Added out.old at (word (decimal x) end) out.new result }
{
    let mut text = [0u8; 20];
    let count = io::decimal(x, &mut text);
    put_word(out, at, &text[..count], end)
}

// The line of a closing that settled the digits. The answer is its length.
pub fn put_finished(out: &mut [u8; LONGEST], p: u64, d: u64, digits: &[u8]) -> usize
    requires { length digits.now ≤ 32 }
    ensures counts { IsPrefixLen result out.new }
    ensures reads { take result out.new ≡ finished_line p d digits.now }
{
    let second = put_number(out, 0, p, b' ');
    let third = put_number(out, second, d, b' ');
    put_word(out, third, digits, b'\n')
}

// The line of a refusal. The answer is its length.
pub fn put_refused(out: &mut [u8; LONGEST], number: u64) -> usize
    ensures counts { IsPrefixLen result out.new }
    ensures reads { take result out.new ≡ refused_line number }
{
    let second = put_word(out, 0, b"refused", b' ');
    put_number(out, second, number, b'\n')
}

// The line for a ledger, at the start of `out`. The answer is its length.
pub fn put_line(f: Series, ledger: &[u8], out: &mut [u8; LONGEST]) -> usize
    ensures counts { IsPrefixLen result out.new }
    ensures reads { take result out.new ≡ printed_line (formula_of f) ledger.now }
{
    let mut digits = [0u8; 32];
    match closing::close(f, ledger, &mut digits) {
        Ok(d) => {
            let count = d as usize;
            put_finished(out, words::get(ledger, 0, 8), d as u64, &digits[..count])
        }
        Err(r) => put_refused(out, run::number_of(r)),
    }
}

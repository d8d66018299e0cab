// The closing program: reads one ledger from standard input and prints its line.
#![tactic(auto)]

ghost use Rattle.std.specs.Io.{ReadsAtMost};

use series::Series;
use std::io;
use std::io::Read;

// Reads until the buffer is full or the input ends. The answer is how many bytes it put at the start of the buffer.
fn read_full(input: &mut impl Read, buffer: &mut [u8]) -> io::Result<usize>
    ensures { ReadsAtMost result buffer.new }
{
    let mut done = 0;
    // What a read gives is known only after it, and no method of `Read` fills a buffer as far as the input goes: `read_exact` fails where the
    // input is shorter, `read_to_end` needs a heap.
    while done < buffer.len() {
        let count = input.read(&mut buffer[done..])?;
        if count == 0 {
            break;
        }
        done += count;
    }
    Ok(done)
}

fn main(rt: HostRuntime) -> io::Result<()> {
    let mut input = [0u8; 4096];
    let n = read_full(&mut rt.stdin(), &mut input)?;
    let mut line = [0u8; closing_line::LONGEST];
    let end = closing_line::put_line(Series::Bellard, &input[..n], &mut line);
    rt.write_all(&line[..end])
}

// The program: reads standard input, and writes the one line that answers it. What the line says, for every input, is proved of
// `decide::program::output`; no contract can say which octets a program reads and writes.

#![tactic(auto)]

ghost use Rattle.robots_decide.specs.Inputs.{Fits, Reads};

use std::io;
use std::io::{Read, Write};

// Reads until the input ends, the buffer is full or a read fails: so many octets, or that error; then what was read may be only a part. Each result is
// looked at, since the read after a failed one may say that the input has ended.
fn read_input<R: Read>(reader: &mut R, buffer: &mut [u8]) -> io::Result<usize>
    ensures fits { Fits result buffer.new }
    ensures whole { Reads (R.remaining reader.old) (R.remaining reader.new) result buffer.new }
{
    let mut n = 0;
    // No `for`: a read tells how far the next one goes on.
    while n < buffer.len() {
        let more = reader.read(&mut buffer[n..])?;
        if more == 0 {
            return Ok(n);
        }
        n += more;
    }
    Ok(n)
}

fn main(rt: HostRuntime) -> io::Result<()> {
    // one octet more than is answered, so that a longer input is seen to be too long
    let mut buffer = [0u8; 65537];
    // nothing is written of an input that couldn't be read
    let Ok(n) = read_input(&mut rt.stdin(), &mut buffer) else {
        return Ok(());
    };
    let line = decide::program::output(&buffer[..n]);
    rt.stdout().write_all(line.octets())
}

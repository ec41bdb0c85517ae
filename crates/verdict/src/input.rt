// Reading the whole input, which tells a read that fails from the end of the input.
ghost use Rattle.std.specs.Prelude.{length};
ghost use Rattle.verdict.specs.Input.{Filled};

use std::io;
use std::io::{ErrorKind, Read};

// One read, made again while a signal interrupts it; 0 bytes at the end of the input. A proved loop has to end, so this
// one counts its tries, up to a number that no run uses up.
fn read_some<R: Read>(from: &mut R, buf: &mut [u8]) -> io::Result<usize>
    ensures { Filled result buf.new }
{
    for _ in 0..u64::MAX {
        match from.read(buf) {
            Err(e) if e.kind() == ErrorKind::Interrupted => {}
            read => return read,
        }
    }
    Err(io::Error::from(ErrorKind::Interrupted))
}

// Reads until the buffer is full or the input ends. A read that fails before that ends it, and its error is answered.
// The loop counts no index: a read says how far it got. No `read_to_end`, which would need memory that can run out.
pub fn read_all<R: Read>(from: &mut R, buf: &mut [u8]) -> io::Result<usize>
    ensures { Filled result buf.new }
{
    let mut done = 0;
    while done < buf.len() {
        let n = read_some(from, &mut buf[done..])?;
        if n == 0 {
            break;
        }
        done += n;
    }
    Ok(done)
}

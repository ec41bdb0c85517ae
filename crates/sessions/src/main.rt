// Judges the sessions of its standard input and prints what is answered. A line of the input is a comment, which is
// printed as it stands, or a session: a letter and hexadecimal digits, two to a byte.
//   # COMMENT
//   jTRACE               judge the trace, as the program `verdict` does
//   wTRACE               judge the trace and print its windows behind the lines
//   oFIRSTSECONDTRACE    four digits each: the order query
//   bWORKCUTTRACE        four digits each: judge with a work area of 7s and a cut buffer of 9s of these lengths
#![tactic(auto)]

ghost use Rattle.std.specs.Prelude.{◌≡◌, ◌≤◌, length, IfOk};

mod answers;
mod lines;
mod window_lines;

use std::io;
use std::io::Read;

// A megabyte of zeros, for the input.
fn space() -> [u8; 1048576]
    ensures { 1048576 ≡ length result }
{
    [0; 1048576]
}

// Reads until the buffer is full or the input ends; answers how many bytes stand at the buffer's start. The loop counts
// no index: a read says how far it got. No `read_to_end`, which would need memory that can run out.
fn fill<R: Read>(from: &mut R, buf: &mut [u8]) -> io::Result<usize>
    ensures { IfOk result (λ n. n ≤ length buf.new) }
{
    let mut done = 0;
    while done < buf.len() {
        let n = from.read(&mut buf[done..])?;
        if n == 0 {
            break;
        }
        done += n;
    }
    Ok(done)
}

fn main(rt: HostRuntime) -> io::Result<()> {
    let mut input = space();
    let n = fill(&mut rt.reader(), &mut input)?;
    answers::answer_all(&rt, &input[..n])
}

// Reads a trace from standard input and prints its verdict. If a read fails it prints none, since a part of a trace may
// be judged otherwise than the whole, and says so on standard error. It says there too that a write failed.
#![tactic(auto)]

mod input;

use std::io;
use std::io::Error;

// The text of an error without the number that the system gives it.
fn reason(text: &str) -> &str {
    text.split_once(" (os error ")
        .map_or(text, |(front, _)| front)
}

// Says on standard error what failed, and why, in one line.
fn complain(rt: &(impl Eprint + AllocGlobal), what: &str, e: Error) -> io::Result<()> {
    let text = format!(in rt.alloc(); "{e}")?;
    let why = reason(text.as_str());
    eprintln!(rt; "verdict: {what}: {why}")
}

fn main(rt: HostRuntime) -> io::Result<()> {
    let mut buffer = [0u8; 65536];
    let n = match input::read_all(&mut rt.reader(), &mut buffer) {
        Ok(n) => n,
        Err(e) => return complain(&rt, "cannot read standard input", e),
    };
    let mut out = [0u8; 1024];
    let size = verdict_text::text_of(&buffer[..n], &mut out);
    rt.write_all(&out[..size])
        .or_else(|e| complain(&rt, "cannot write standard output", e))
}

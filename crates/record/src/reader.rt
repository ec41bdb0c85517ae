// A lent trace and a position in it, for reading record by record: a small struct, as document 01 asks. The functions
// over it are thin: `next` and `scan` take it apart and call `step_at` and `scan_step` on the slice and the number;
// `read_at` and `scan_at`, whose parameters are plain, read through the struct and serve every other caller.
ghost use Rattle.std.specs.Prelude.{◌≡◌};
ghost use Rattle.record.specs.Answers.{read_answer, numbered, scan_of};
ghost use Rattle.record.specs.Reading.{read_at};

use crate::reading::{Read, step_at};
use crate::refusal::Refusal;
use crate::scanning::{Scan, scan_step};

#[derive(Clone, Copy)]
pub struct Reader<'a> {
    pub trace: &'a [u8],
    pub at: usize,
}

// A reader at a position of a trace: 0 for the first record, and what `next` answered for the one after it.
pub fn new<'a>(trace: &'a [u8], at: usize) -> Reader<'a>
    ensures { (result.trace ≡ trace.entry) × (result.at ≡ at) }
{
    Reader { trace, at }
}

// The record at the reader's position: its event and the position past it, or the refusal. A position past the end has
// no bytes.
pub fn next<'a>(r: Reader<'a>) -> Result<Read, Refusal>
    ensures { read_answer result ≡ read_at r.entry.trace.now r.entry.at }
{
    step_at(r.trace, r.at)
}

// The record at a position of a trace, as `next` answers it.
pub fn read_at(trace: &[u8], at: usize) -> Result<Read, Refusal>
    ensures { read_answer result ≡ read_at trace.now at }
{
    next(new(trace, at))
}

// The record at the reader's position as plain numbers.
pub fn scan<'a>(r: Reader<'a>) -> Result<Scan, Refusal>
    ensures { numbered result ≡ scan_of (read_at r.entry.trace.now r.entry.at) }
{
    scan_step(r.trace, r.at)
}

// The record at a position of a trace, as `scan` answers it.
pub fn scan_at(trace: &[u8], at: usize) -> Result<Scan, Refusal>
    ensures { numbered result ≡ scan_of (read_at trace.now at) }
{
    scan(new(trace, at))
}

// Reading a record: its frame by the length bytes, then its kind, its length by the table, and its fields.
ghost use Rattle.std.specs.Prelude.{◌≡◌, ◌+◌, ◌≤◌, length, Ok};
ghost use Rattle.record.specs.Answers.{read_answer};
ghost use Rattle.record.specs.Fields.{RowFits, field_at, fields_at};
ghost use Rattle.record.specs.Reading.{frame, read_framed, read_first, read_at};

use crate::bytes::word_at;
use crate::events::{Event, Fields, of_kind};
use crate::kinds::{
    LENGTH, LOCATION, LOCATIONS, OUTCOME, SOURCE, THREAD, THREADS, VERSION, row_of,
};
use crate::refusal::Refusal;

// A record that was read: its event and the position past it.
#[derive(Clone, Copy, Debug, PartialEq, Eq)]
pub struct Read {
    pub event: Event,
    pub next: usize,
}

// A field's value, or 0 where its offset is 0.
fn field(s: &[u8], at: u16) -> u16
    requires { at + 2 ≤ length s.now }
    ensures { result ≡ field_at s.now at }
{
    if at == 0 {
        0
    } else {
        word_at(s, usize::from(at))
    }
}

// The values of the fields that a row of the table places in a record.
pub(crate) fn fields_at(s: &[u8], row: [u16; 10]) -> Fields
    requires { RowFits row (length s.now) }
    ensures { result ≡ fields_at s.now row }
{
    Fields {
        thread: field(s, row[THREAD]),
        location: field(s, row[LOCATION]),
        source: field(s, row[SOURCE]),
        version: field(s, row[VERSION]),
        threads: field(s, row[THREADS]),
        locations: field(s, row[LOCATIONS]),
        outcome: field(s, row[OUTCOME]),
    }
}

// The first record's size with its length bytes, which alone say it; or refusal 1, 2 or 4.
#[tactic(auto, unfolding(crate::specs::Reading::frame))]
pub(crate) fn frame_of(s: &[u8]) -> Result<usize, Refusal>
    ensures { result ≡ frame s.now }
{
    if s.is_empty() {
        return Err(Refusal::NoRecord);
    }
    if s.len() < 2 {
        return Err(Refusal::CutShort);
    }
    let len = word_at(s, 0);
    if len < 2 {
        return Err(Refusal::WrongLength);
    }
    let size = usize::from(len) + 2;
    if s.len() < size {
        return Err(Refusal::CutShort);
    }
    Ok(size)
}

// The event of a framed record of n bytes, or refusal 3 or 4.
#[tactic(auto, unfolding(crate::specs::Reading::read_framed))]
fn read_framed(s: &[u8], n: usize) -> Result<Read, Refusal>
    requires { (4 ≤ n) × (n ≤ length s.now) }
    ensures { read_answer result ≡ read_framed s.now (Ok n) }
{
    let kind = word_at(s, 2);
    let row = row_of(kind);
    let len = row[LENGTH];
    if len == 0 {
        return Err(Refusal::UnknownKind);
    }
    if usize::from(len) + 2 != n {
        return Err(Refusal::WrongLength);
    }
    Ok(Read {
        event: of_kind(kind, fields_at(s, row)),
        next: n,
    })
}

// Reads one record alone, the first of the bytes given, and ignores what follows it. Answers its event and its size, or
// 1 (no bytes), 2 (bytes end inside it), 3 (unknown kind) or 4 (a length under 2, or wrong for the kind).
#[tactic(auto, using(crate::proofs::Frames::by_frame))]
pub fn read_first(bytes: &[u8]) -> Result<Read, Refusal>
    ensures { read_answer result ≡ read_first bytes.now }
{
    let n = frame_of(bytes)?;
    read_framed(bytes, n)
}

// The same of the record at a position of a trace, with the position past it.
#[tactic(auto, using(crate::proofs::Starts::of_the_rest))]
pub(crate) fn step_at(trace: &[u8], at: usize) -> Result<Read, Refusal>
    ensures { read_answer result ≡ read_at trace.now at }
{
    let Some(rest) = trace.get(at..) else {
        return Err(Refusal::NoRecord);
    };
    let read = read_first(rest)?;
    Ok(Read {
        event: read.event,
        next: at + read.next,
    })
}

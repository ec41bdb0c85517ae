// The record at a position as plain numbers, for callers that go record by record: each kind is read off its bytes by
// its row of the table, in an arm of its own, so that the compiler can join the arm to what the caller does with the
// kind. What refuses a record is asked of `step_at`, which answers no record here.
ghost use Rattle.std.specs.Prelude.{◌≡◌, ◌≢◌, ◌+◌, ◌-◌, ◌≤◌, length, IsErr, IfOk, IfErr, Err};
ghost use Rattle.record.specs.Bytes.{word};
ghost use Rattle.record.specs.Table.{row_of, length_of};
ghost use Rattle.record.specs.Answers.{number_of, numbered, scan_of};
ghost use Rattle.record.specs.Reading.{read_at};

use crate::bytes::word_at;
use crate::events::Fields;
use crate::kinds::{LENGTH, row_of};
use crate::reading::{fields_at, step_at};
use crate::refusal::Refusal;

// A record as plain numbers: its kind, by whose number the judge matches, as document 01 asks; its fields; and the
// position past it.
#[derive(Clone, Copy, Debug, PartialEq, Eq)]
pub struct Scan {
    pub kind: u16,
    pub fields: Fields,
    pub next: usize,
}

// What refuses the record at a position, where something does.
fn refusal_at(trace: &[u8], at: usize) -> Refusal
    requires { IsErr (scan_of (read_at trace.now at)) }
    ensures { Err (number_of result) ≡ scan_of (read_at trace.now at) }
{
    step_at(trace, at).unwrap_err()
}

// The same by reading the record. It is a function of its own for speed: the room for what `step_at` answers is cleared
// where a function begins, and so would be at each event if `end_refusal` called it.
#[tactic(auto, using(crate::proofs::Scans::near_the_end))]
fn end_read(trace: &[u8], at: usize) -> Result<(), Refusal>
    ensures refusal { IfErr result (λ k. Err (number_of k) ≡ scan_of (read_at trace.now at)) }
    ensures at_in_bounds { IfOk result (λ _. (at + 4 ≤ length trace.now)
        × (at + length_of (word trace.now (at + 2)) + 2 ≤ length trace.now)) }
{
    step_at(trace, at)?;
    Ok(())
}

// What refuses the record at a position where fewer bytes are left than the longest record has, if something does. If
// not, the record's kind is there, and as many bytes as the kind's record has.
#[tactic(auto, using(crate::proofs::Scans::near_the_end))]
fn end_refusal(trace: &[u8], at: usize) -> Result<(), Refusal>
    ensures refusal { IfErr result (λ k. Err (number_of k) ≡ scan_of (read_at trace.now at)) }
    ensures at_in_bounds { IfOk result (λ _. (at + 4 ≤ length trace.now)
        × (at + length_of (word trace.now (at + 2)) + 2 ≤ length trace.now)) }
{
    if at < trace.len().saturating_sub(9) {
        return Ok(());
    }
    if trace.len() <= at {
        return Err(Refusal::NoRecord);
    }
    end_read(trace, at)
}

// The record of that kind at a position, by the kind's row of the table; as many bytes as it has are there.
#[tactic(auto, using(crate::proofs::Scans::scan_known, crate::proofs::Scans::wrong_length))]
fn scan_kind(trace: &[u8], at: usize, kind: u16) -> Result<Scan, Refusal>
    requires { (kind ≡ word trace.now (at + 2)) × (length_of kind ≢ 0)
        × (at + length_of kind + 2 ≤ length trace.now) }
    ensures { numbered result ≡ scan_of (read_at trace.now at) }
{
    let row = row_of(kind);
    let len = row[LENGTH];
    if word_at(trace, at) != len {
        return Err(refusal_at(trace, at));
    }
    Ok(Scan {
        kind,
        fields: fields_at(&trace[at..], row),
        next: at + usize::from(len) + 2,
    })
}

// The record at a position: what `step_at` answers, as numbers.
#[tactic(auto, using(crate::proofs::Scans::known_at, crate::proofs::Scans::unknown_kind))]
pub(crate) fn scan_step(trace: &[u8], at: usize) -> Result<Scan, Refusal>
    ensures { numbered result ≡ scan_of (read_at trace.now at) }
{
    end_refusal(trace, at)?;
    let kind = word_at(trace, at + 2);
    match kind {
        1 => scan_kind(trace, at, 1),
        2 => scan_kind(trace, at, 2),
        3 => scan_kind(trace, at, 3),
        4 => scan_kind(trace, at, 4),
        5 => scan_kind(trace, at, 5),
        6 => scan_kind(trace, at, 6),
        7 => scan_kind(trace, at, 7),
        8 => scan_kind(trace, at, 8),
        9 => scan_kind(trace, at, 9),
        10 => scan_kind(trace, at, 10),
        11 => scan_kind(trace, at, 11),
        12 => scan_kind(trace, at, 12),
        13 => scan_kind(trace, at, 13),
        14 => scan_kind(trace, at, 14),
        15 => scan_kind(trace, at, 15),
        16 => scan_kind(trace, at, 16),
        _ => Err(refusal_at(trace, at)),
    }
}

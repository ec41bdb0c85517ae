// Where record number e stands in a trace, the record as a part of it, and what a record at a position says of its
// source.
ghost use Rattle.std.specs.Prelude.{◌≡◌, ◌≢◌, ◌+◌, ◌≤◌, length, eqb, ◌||◌};
ghost use Rattle.record.specs.Fields.{RowFits};
ghost use Rattle.record.specs.Parts.{size_at, place_of, record_part, source_if, source_at};

use crate::bytes::word_at;
use crate::kinds::{KINDS, LENGTH, SOURCE, THREAD};
use crate::reading::frame_of;

// The size of the record at a position inside the trace or at its end, its length bytes included; 0 where it cannot be
// framed: the number that `place_of` and `source_at` answer by. `place_of` knows that its positions are inside: a test
// of each made it 1.25 to 1.3 times as slow.
#[tactic(auto, using(crate::proofs::Starts::size_of_rest))]
fn size_inside(trace: &[u8], at: usize) -> usize
    requires { at ≤ length trace.now }
    ensures value { result ≡ size_at trace.now at }
    ensures within { result ≢ 0 → (4 ≤ result) × (at + result ≤ length trace.now) }
{
    frame_of(&trace[at..]).unwrap_or(0)
}

// The same at any position; 0 past the end too.
#[tactic(auto, using(crate::proofs::Starts::no_size))]
pub(crate) fn size_at(trace: &[u8], at: usize) -> usize
    ensures value { result ≡ size_at trace.now at }
    ensures within { result ≢ 0 → (4 ≤ result) × (at + result ≤ length trace.now) }
{
    if trace.len() < at {
        return 0;
    }
    size_inside(trace, at)
}

// Where a record stands in its trace: the position of its length bytes, and its size with them. `gorbuzte_frame` hands
// out both, so a record that is not framed has size 0, and is no `None`.
#[derive(Clone, Copy, Debug, PartialEq, Eq)]
pub struct Place {
    pub start: usize,
    pub size: usize,
}

// Where record number e stands. Its size is 0 exactly if records 0 to e cannot all be framed.
#[tactic(auto, using(crate::proofs::Starts::places), unfolding(crate::specs::Parts::start))]
pub fn place_of(trace: &[u8], e: usize) -> Place
    ensures value { result ≡ place_of trace.now e }
    ensures size_in_bounds { result.start + result.size ≤ length trace.now }
{
    let mut at = 0;
    for i in 0..e {
        let n = size_inside(trace, at);
        if n == 0 {
            return Place { start: at, size: 0 };
        }
        at += n;
    }
    Place {
        start: at,
        size: size_inside(trace, at),
    }
}

// Record number e of the trace, its length bytes included. Empty exactly if records 0 to e cannot all be framed.
#[tactic(auto, using(crate::proofs::Starts::part_is))]
pub fn part(trace: &[u8], e: usize) -> &[u8]
    ensures { result.now ≡ record_part trace.now e }
{
    let p = place_of(trace, e);
    &trace[p.start..p.start + p.size]
}

// What a record whose kind has a source says of it.
#[derive(Clone, Copy, Debug, PartialEq, Eq)]
pub struct Source {
    pub thread: u16,
    pub source: u16,
}

// The source of the record at a position, if its kind has one, and the position past the record.
#[derive(Clone, Copy, Debug, PartialEq, Eq)]
pub struct SourceAt {
    pub source: Option<Source>,
    pub next: usize,
}

// The record of that size at a position, if its kind has a source: its thread and source stand where the row says.
fn source_if(sourced: bool, trace: &[u8], at: usize, size: usize, row: [u16; 10]) -> SourceAt
    requires { (at + size ≤ length trace.now) × RowFits row size }
    ensures { result ≡ source_if sourced trace.now at size row }
{
    let source = sourced.then(|| Source {
        thread: word_at(trace, at + usize::from(row[THREAD])),
        source: word_at(trace, at + usize::from(row[SOURCE])),
    });
    SourceAt {
        source,
        next: at + size,
    }
}

// A load or a locked operation, whose rows of the table have one length and one place for each field.
fn loads(kind: u16) -> bool
    ensures { result ≡ (eqb kind 4 || eqb kind 12) }
{
    kind == 4 || kind == 12
}

// The record at a position, by its length bytes: for a pass over a trace that was read before, and that wants the
// sources alone. A record that cannot be framed has no size, so the position past it is its own. Loads, locked
// operations and waits have a source; no other kind does.
#[tactic(auto, using(crate::proofs::Sources::by_size), unfolding(crate::specs::Table::row_of))]
pub fn source_at(trace: &[u8], at: usize) -> SourceAt
    ensures { result ≡ source_at trace.now at }
{
    let load = KINDS[4];
    let wait = KINDS[14];
    let size = size_at(trace, at);
    if size == usize::from(load[LENGTH]) + 2 {
        return source_if(loads(word_at(trace, at + 2)), trace, at, size, load);
    }
    if size == usize::from(wait[LENGTH]) + 2 {
        return source_if(word_at(trace, at + 2) == 14, trace, at, size, wait);
    }
    SourceAt {
        source: None,
        next: at + size,
    }
}

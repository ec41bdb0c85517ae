// A trace's records, one after the other, and the verdict. What ends the run before a record is a `Stop`.
ghost use Rattle.std.specs.Prelude.{◌≡◌};
ghost use Rattle.area.specs.Cells.{event_at};
ghost use Rattle.model.specs.Reading.{begun_reading};
ghost use Rattle.model.specs.Judge.{reading_cut};
ghost use Rattle.judge.specs.Runs.{Began, Reached, After, AnswersAsDefined};

use crate::stop::Stop;
use crate::{loads, verdict};
use machine::{Machine, Tables};
use marks::Marks;
use model::{Refusal, Verdict};

// What the begin says, and the position past it.
#[derive(Clone, Copy)]
pub struct Begun {
    pub version: u16,
    pub threads: u16,
    pub locations: u16,
    pub at: usize,
}

// Between two records: the stretch, where the row of the next event begins, and the position of the next record. With
// the begin's numbers beside them, in a `Machine`, the compiler packs all four in one number at each record and takes
// them apart again, which costs half as many instructions again.
#[derive(Clone, Copy)]
pub struct Cursor {
    pub stretch: u16,
    pub row: usize,
    pub at: usize,
}

// The first record. A second caller of `scan_at` would keep the compiler from taking the scan into the loop below, so
// the begin is read as an event.
fn begin(trace: &[u8]) -> Result<Begun, Stop>
    ensures { Began trace.now result }
{
    let read = record::read_at(trace, 0)?;
    let f = record::fields_of(read.event);
    machine::begin_refusal(record::kind_of(read.event), f)?;
    Ok(Begun {
        version: f.version,
        threads: f.threads,
        locations: f.locations,
        at: read.next,
    })
}

// The judging step: a record that can't be read ends the judging there with its refusal, which is 3 in the place of a
// wrong length if the trace's version does not know the kind; so does an event that a rule forbids. Any other takes its
// step, and the loads that count as of it are judged. At the trace's end there are no bytes to read, which is the
// reader's refusal 1; no later record has that number otherwise.
fn judge_record(
    trace: &[u8],
    b: Begun,
    t: Cursor,
    tables: &mut Tables,
    marks: &mut Marks,
    work: &mut [u16; 32768],
) -> Result<Cursor, Stop>
    requires { Reached trace.now b (event_at t.row) t tables.old marks.old work.old }
    ensures { After trace.now b (event_at t.row) result tables.new marks.new work.new }
{
    let row = t.row;
    let scanned = record::scan_at(trace, t.at);
    let Ok(e) = scanned else {
        let refusal = scanned.unwrap_err().later(b.version, trace, t.at);
        return Err(Stop::Unread(refusal));
    };
    let m = Machine {
        row,
        stretch: t.stretch,
        version: b.version,
        threads: b.threads,
        locations: b.locations,
    };
    let s = m.step(tables, work, e.kind, e.fields)?;
    loads::judge_event(tables, marks, s.counted, work, e.kind, row, e.fields);
    Ok(Cursor {
        stretch: s.machine.stretch,
        row: row + 16,
        at: e.next,
    })
}

// All records, and the verdict; empty bytes are refused with 1. The machine's tables and the marks are variables of this
// call, so that the compiler knows them apart from the work area; and the work area is an array, so that it drops the
// tests of its length from every read and store.
pub(crate) fn run(
    trace: &[u8],
    work: &mut [u16; 32768],
    cut: &mut [u16; 56],
) -> Result<Verdict, Refusal>
    ensures answers_as_defined { AnswersAsDefined trace.now result work.new }
    ensures cut_after { cut.new
        ≡ reading_cut trace.now cut.old (begun_reading trace.now) }
{
    let b = match begin(trace) {
        Ok(b) => b,
        Err(stop) => {
            return Err(Refusal {
                number: stop.number(),
                event: 0,
            });
        }
    };
    let mut tables: Tables = [0; 3008];
    let mut marks = Marks::new();
    let mut t = Cursor {
        stretch: 1,
        row: 0,
        at: b.at,
    };
    let stop = loop {
        match judge_record(trace, b, t, &mut tables, &mut marks, work) {
            Ok(next) => t = next,
            Err(stop) => break stop,
        }
    };
    let event = area::event_at(t.row);
    verdict::verdict(trace, stop, event, &tables, &marks, work, cut)
}

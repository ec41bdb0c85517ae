// The loads that count as of an event, judged when it comes, and the evidence of the event that breaks the trace.
ghost use Rattle.std.specs.Prelude.{◌≡◌, true, ◌≢◌, ℕ, suc, ◌≤◌};
ghost use Rattle.record.specs.declared.events.Event.{Event};
ghost use Rattle.record.specs.Fields.{fields_of};
ghost use Rattle.model.specs.Trace.{location};
ghost use Rattle.model.specs.Stores.{head_of, landed};
ghost use Rattle.area.specs.Cells.{event_at};
ghost use Rattle.marks.specs.Matching.{MarksMatch};
ghost use Rattle.judge.specs.Judging.{evidence_at, Stepped};

use machine::Tables;
use marks::{Load, Marks};
use record::Fields;

// The load that breaks the trace, with the missing and the observed store.
#[derive(Clone, Copy)]
pub struct Evidence {
    pub load: u16,
    pub missing: u16,
    pub observed: u16,
}

// The evidence over records 0 to `load`, whose marks these are: later loads leave none.
#[tactic(auto, unfolding(crate::specs::Judging::evidence_at))]
pub(crate) fn evidence_at(marks: &Marks, work: &[u16], load: u16) -> Evidence
    ensures { result ≡ evidence_at work.now marks.now load }
{
    let n = area::numbers::next_number(load);
    let missing = marks.missing(work, n);
    let observed = marks.observed(work, n, missing);
    Evidence {
        load,
        missing,
        observed,
    }
}

// The last store committed at location x before the event whose row begins at `row`, a counted load of x; 0 if there is
// none. The links of the rows lead from it to the others. This is the one lookup of the location's stores; all of the
// load's judging takes its answer. The event's step is made: a locked operation heads the chain by then, and its link
// is what it found; any other load commits nothing.
fn head_found(tables: &Tables, work: &[u16], kind: u16, row: usize, x: u16) -> u16
    requires { row ≤ 32768 }
    ensures { (ev : ℕ → Event)
        → Stepped ev (event_at row) kind true tables.now work.now
        → kind ≢ 16 → location ev (event_at row) ≡ x → result ≡ head_of (landed ev (event_at row) x) }
{
    if kind == 12 {
        return area::row_get(work, area::event_at(row), 14);
    }
    machine::last_committed(tables, x)
}

// The event of that kind whose row begins at `row`, which passes, with the fields f: the loads that count as of it are
// judged. If the marks matched the events before this one, they match those up to it.
pub(crate) fn judge_event(
    tables: &Tables,
    marks: &mut Marks,
    counted: bool,
    work: &[u16; 32768],
    kind: u16,
    row: usize,
    f: Fields,
)
    requires { row ≤ 32768 }
    ensures { (ev : ℕ → Event)
        → Stepped ev (event_at row) kind counted tables.now work.now
        → fields_of (ev (event_at row)) ≡ f
        → MarksMatch ev (event_at row) marks.old
        → MarksMatch ev (suc (event_at row)) marks.new }
{
    if !counted {
        return;
    }
    if kind == 16 {
        let k = machine::newest_held(tables, f.thread);
        marks.judge_held(work, k, row);
        return;
    }
    let load = Load {
        head: head_found(tables, work, kind, row, f.location),
        location: f.location,
        source: f.source,
    };
    marks.judge_load(work, load, row);
}

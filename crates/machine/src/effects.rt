// What an event that passes does to the tables and to the work area. Each function says both afterwards. `row` is where
// the event's own row begins; that the row is inside is a fact about it and the lent work area, so no type of the row
// alone holds it.
ghost use Rattle.std.specs.Prelude.{◌≡◌, ◌+◌, ◌≤◌, ◌<◌, length};
ghost use Rattle.area.specs.Cells.{no_store, joined};
ghost use Rattle.machine.specs.Tables.{thread_cell};
ghost use Rattle.machine.specs.Effects.{issued_tables, issued_work, committed_tables, committed_work};
ghost use Rattle.machine.specs.Effects.{headed, exchanged_tables, exchanged_work, signalled_work};
ghost use Rattle.machine.specs.Effects.{held_tables, held_work, finished_thread, finished};

use crate::places::{Location, ThreadId};
use crate::tables::Tables;
use crate::{clocks, regions, tables, threads};

// "the store joins its thread's queue": its row, the link of the store before it, and the newest store at the location.
// A thread's first store of a stretch has none before it: the link then goes to row 2,048, whose event has not come, or
// is this one, and its own row is written behind the link.
#[tactic(auto, unfolding(crate::specs::Threads::issued_t, // the thread's new state, and
crate::specs::Effects::issued_tables, crate::specs::Effects::issued_work))]
pub(crate) fn issue(
    tables: &mut Tables,
    work: &mut [u16],
    row: usize,
    t: ThreadId,
    x: Location,
    j: u16,
)
    requires { (row < 32768) × (row + 16 ≤ length work.old) }
    ensures tables_after { tables.new ≡ issued_tables tables.old row t x }
    ensures work_after { work.new ≡ issued_work tables.old work.old row t x j }
{
    let store = area::event_at(row);
    let old = threads::thread_of(tables, t);
    let new = old.issue(store);
    area::row_put(work, old.newest, 12, store);
    clocks::write_row(tables, t, work, row, new.issued, x, j);
    threads::put_issued(tables, t, new);
    tables[tables::newest(x, t)] = store;
}

// Store p, committed in stretch j, heads the chain of committed stores of location x.
fn head(tables: &mut Tables, p: u16, x: Location, j: u16)
    ensures { tables.new ≡ headed tables.old p x j }
{
    tables[tables::last(x)] = p;
    tables[tables::stretch(x)] = j;
}

// "the oldest waiting store of the thread takes effect": it heads its location's chain, links to the head so far, and
// keeps where the row of this event begins.
#[tactic(auto, unfolding(crate::specs::Effects::committed_tables, crate::specs::Effects::committed_work))]
pub(crate) fn commit(tables: &mut Tables, work: &mut [u16], row: usize, t: ThreadId, j: u16)
    requires { (row < 32768) × (row + 16 ≤ length work.old) }
    ensures tables_after { tables.new ≡ committed_tables tables.old work.old t j }
    ensures work_after { work.new ≡ committed_work tables.old work.old row t }
{
    let old = threads::thread_of(tables, t);
    let p = old.oldest;
    let x = Location::of(area::row_get(work, p, 9) % 256);
    let next = area::row_get(work, p, 12);
    let new = old.commit(next);
    area::no_store(work, row);
    area::row_put(work, p, 14, tables[tables::last(x)]);
    area::row_put(work, p, 13, row as u16);
    head(tables, p, x, j);
    threads::put_committed(tables, t, new);
}

// A locked operation's store, behind its load from s: it joins the queue, which is empty, and takes effect. It is this
// event's own, whose row stays that of a store, so it links itself; and it keeps its source, held or not.
#[tactic(auto, unfolding(crate::specs::Effects::exchanged_tables, crate::specs::Effects::exchanged_work))]
pub(crate) fn exchange(
    tables: &mut Tables,
    work: &mut [u16],
    row: usize,
    t: ThreadId,
    x: Location,
    s: u16,
    j: u16,
)
    requires { (row < 32768) × (row + 16 ≤ length work.old) }
    ensures tables_after { tables.new ≡ exchanged_tables tables.old row t x j }
    ensures work_after { work.new ≡ exchanged_work tables.old work.old row t x s j }
{
    issue(tables, work, row, t, x, j);
    let own = threads::thread_of(tables, t);
    work[row + 13] = s;
    work[row + 14] = tables[tables::last(x)];
    head(tables, area::event_at(row), x, j);
    threads::put_committed(tables, t, own.commit(0));
}

// A signal of thread t in stretch j: its row keeps the clock that a store issued in its place would have, that store
// itself not counted.
#[tactic(auto, unfolding(crate::specs::Effects::signalled_work))]
pub(crate) fn signal(tables: &Tables, work: &mut [u16], row: usize, t: ThreadId, j: u16)
    requires { (row + 16 ≤ length work.old) }
    ensures { work.new ≡ signalled_work tables.now work.old row t j }
{
    let own = threads::thread_of(tables, t);
    clocks::write_clock(tables, t, work, row, own.issued);
    work[row + 10] = 0;
    work[row + 11] = j;
}

// A load from store s of the stretch, or a wait for signal s, brings the clock of s to its thread.
pub(crate) fn meet(tables: &mut Tables, work: &mut [u16], row: usize, t: ThreadId, s: u16)
    requires { (row + 16 ≤ length work.old) × (32768 ≤ length work.old) }
    ensures tables_after { tables.new ≡ joined 8 work.old s (thread_cell t 0) tables.old }
    ensures work_after { work.new ≡ no_store work.old row }
{
    area::join(tables, tables::thread(t, 0), work, s);
    area::no_store(work, row);
}

// A crossing load of thread t, which is open, at location x from s is held: its row has its location and source, the
// last store committed there, and the load held before it.
#[tactic(auto, unfolding(crate::specs::Effects::held_tables, crate::specs::Effects::held_work))]
pub(crate) fn hold(
    tables: &mut Tables,
    work: &mut [u16],
    row: usize,
    t: ThreadId,
    x: Location,
    s: u16,
)
    requires { (row < 32768) × (row + 16 ≤ length work.old) }
    ensures tables_after { tables.new ≡ held_tables tables.old row t }
    ensures work_after { work.new ≡ held_work tables.old work.old row t x s }
{
    let old = regions::region_of(tables, t);
    work[row + 9] = x.number();
    work[row + 13] = s;
    work[row + 14] = tables[tables::last(x)];
    work[row + 15] = old.newest;
    regions::put_held(tables, t, old.hold(area::event_at(row)));
}

// Stretch j is finished: the commits of thread t go to their table, and the thread starts afresh.
#[tactic(auto, unfolding(crate::specs::Effects::finished_thread))]
fn finish_thread(tables: &mut Tables, j: u16, t: ThreadId)
    ensures { tables.new ≡ finished_thread tables.old j t }
{
    let old = threads::thread_of(tables, t);
    let region = regions::region_of(tables, t);
    tables[tables::commits(j, t.number())] = old.committed;
    threads::restart(tables, t, old.crash());
    regions::put_held(tables, t, region.crash());
}

// So of all threads.
#[tactic(auto, unfolding(crate::specs::Effects::finished))]
pub(crate) fn finish(tables: &mut Tables, j: u16)
    ensures { tables.new ≡ finished 8 tables.old j }
{
    for t in 0..8 {
        finish_thread(tables, j, ThreadId::of(t));
    }
}

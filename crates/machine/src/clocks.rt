// Vector clocks: what a thread has seen, columns 0 to 7 of its row, goes into a store's or a signal's row.
ghost use Rattle.std.specs.Prelude.{◌≡◌, ◌+◌, ◌≤◌, length};
ghost use Rattle.machine.specs.Effects.{with_clock, with_store};

use crate::places::{Location, ThreadId};
use crate::tables;
use crate::tables::Tables;

// The clock of a row, which begins at `row`: what thread t has seen, with `own` for t itself.
#[tactic(auto, unfolding(crate::specs::Effects::clocked, crate::specs::Effects::with_clock))]
pub(crate) fn write_clock(tables: &Tables, t: ThreadId, work: &mut [u16], row: usize, own: u16)
    requires { row + 16 ≤ length work.old }
    ensures { work.new ≡ with_clock tables.now t row own work.old }
{
    let from = tables::thread(t, 0);
    // `copy_from_slice` was tried: it costs 1.04 to 1.09 times the instructions of a whole judgement.
    for u in 0..8 {
        work[row + u] = tables[from + u];
    }
    work[row + usize::from(t.number())] = own;
}

// A store's row, which begins at `row`: its clock; its thread, location and stretch; that it is no signal; and no next
// store yet.
#[tactic(auto, unfolding(crate::specs::Effects::with_store))]
pub(crate) fn write_row(
    tables: &Tables,
    t: ThreadId,
    work: &mut [u16],
    row: usize,
    own: u16,
    x: Location,
    j: u16,
)
    requires { row + 16 ≤ length work.old }
    ensures { work.new ≡ with_store tables.now t row own x j work.old }
{
    write_clock(tables, t, work, row, own);
    work[row + 8] = t.number();
    work[row + 9] = x.number();
    work[row + 10] = j;
    work[row + 11] = 0;
    work[row + 12] = 0;
}

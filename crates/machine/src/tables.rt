// The machine's tables, in one array: a row of 16 numbers for each of the eight threads; of each location the last
// store committed there, the stretch of that commit, and the source of the last crossing load that passed; the commits
// of finished stretches; the newest store of each location and thread. specs/Tables.antt has the places.
// A number has two bytes of fixed memory, so 0 stands for none, also in what the judge is answered: the links that it
// follows from there end at 0. Each place has a function, which gives it a name and a definition.
ghost use Rattle.std.specs.Prelude.{◌≡◌, ◌+◌, ◌≤◌, ◌<◌};
ghost use Rattle.machine.specs.Tables.{thread_cell, last_cell, source_cell, commits_cell, newest_cell, stretch_cell};
ghost use Rattle.machine.specs.Tables.{last_in, held_in, committed_in};

use crate::places::{Location, ThreadId};

pub type Tables = [u16; 3008];

// Number k of thread t's row.
pub(crate) fn thread(t: ThreadId, k: u16) -> usize
    ensures { (result ≡ thread_cell t k) × (result ≤ 112 + k) }
{
    16 * usize::from(t.number()) + usize::from(k)
}

// The last store committed at location x.
pub(crate) fn last(x: Location) -> usize
    ensures { (result ≡ last_cell x) × (result < 384) }
{
    128 + usize::from(x.number())
}

// The source of the last crossing load of location x that passed.
pub(crate) fn source(x: Location) -> usize
    ensures { (result ≡ source_cell x) × (result < 640) }
{
    384 + usize::from(x.number())
}

// The commits of thread t in stretch j, once a crash has finished it.
pub(crate) fn commits(j: u16, t: u16) -> usize
    ensures { (result ≡ commits_cell j t) × (result < 704) }
{
    640 + (8 * usize::from(j) + usize::from(t)) % 64
}

// The newest store of thread t at location x.
pub(crate) fn newest(x: Location, t: ThreadId) -> usize
    ensures { (result ≡ newest_cell x t) × (result < 2752) }
{
    704 + usize::from(8 * x.number() + t.number())
}

// The stretch in which the last store of location x was committed.
pub(crate) fn stretch(x: Location) -> usize
    ensures { (result ≡ stretch_cell x) × (result < 3008) }
{
    2752 + usize::from(x.number())
}

// ---- what the judge asks

// The last store committed at location x, 0 if there is none.
pub fn last_committed(tables: &Tables, x: u16) -> u16
    ensures { result ≡ last_in tables.now x }
{
    tables[last(Location::of(x % 256))]
}

// The newest load that thread t, below 8, holds, or held before it closed; 0 if there is none.
pub fn newest_held(tables: &Tables, t: u16) -> u16
    ensures { result ≡ held_in tables.now t }
{
    tables[thread(ThreadId::of(t % 8), 13)]
}

// The stores committed in all finished stretches.
pub fn all_committed(tables: &Tables) -> u32
    ensures { result ≡ committed_in tables.now }
{
    area::total(tables, 648)
}

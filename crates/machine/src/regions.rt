// A thread's region under a checksum: whether the thread is open, and the loads that it holds, columns 12 and 13 of its
// row. The methods hand the new state back. The held loads are linked in the work area; here is the newest.
ghost use Rattle.std.specs.Prelude.{◌≡◌, ◌<◌};
ghost use Rattle.machine.specs.Regions.{began_r, held_r, ended_r, crashed_r, region_of, plain_in};
ghost use Rattle.machine.specs.Regions.{put_region, put_held};

use crate::places::ThreadId;
use crate::tables;
use crate::tables::Tables;

#[derive(Clone, Copy)]
pub struct Region {
    pub opened: bool,
    // The newest load that is held, 0 if there is none, as the tables hold it in two bytes. A close leaves it, for the
    // judge to count the loads from there on.
    pub newest: u16,
}

impl Region {
    // An open: nothing is held yet.
    #[tactic(auto, unfolding(crate::specs::Regions::began_r))]
    pub(crate) fn begin(mut self) -> Region
        ensures { result ≡ began_r self }
    {
        self.opened = true;
        self.newest = 0;
        self
    }

    // Load e is held.
    #[tactic(auto, unfolding(crate::specs::Regions::held_r))]
    pub(crate) fn hold(mut self, e: u16) -> Region
        ensures { result ≡ held_r self e }
    {
        self.newest = e;
        self
    }

    // A close.
    #[tactic(auto, unfolding(crate::specs::Regions::ended_r))]
    pub(crate) fn end(mut self) -> Region
        ensures { result ≡ ended_r self }
    {
        self.opened = false;
        self
    }

    // A crash "drops them", and "ends the open state".
    pub(crate) fn crash(mut self) -> Region
        ensures { result ≡ crashed_r self }
    {
        self.opened = false;
        self.newest = 0;
        self
    }
}

// Thread t's region.
#[tactic(auto, unfolding(crate::specs::Regions::region_of))]
pub(crate) fn region_of(tables: &Tables, t: ThreadId) -> Region
    ensures { result ≡ region_of tables.now t }
{
    Region {
        opened: 2 <= tables[tables::thread(t, 12)],
        newest: tables[tables::thread(t, 13)],
    }
}

// Thread t is in no skip and not open. Its limit is said too: so the source that a crossing load notes, which stands
// behind the threads' rows, changes nothing of the thread.
pub(crate) fn is_plain(tables: &Tables, t: ThreadId) -> bool
    ensures { (result ≡ plain_in tables.now t) × (t < 8) }
{
    tables[tables::thread(t, 12)] == 0
}

// Thread t's region becomes r.
#[tactic(auto, using(crate::proofs::Flags::open_set_is), unfolding(crate::specs::Regions::put_region))]
pub(crate) fn put_region(tables: &mut Tables, t: ThreadId, r: Region)
    ensures { tables.new ≡ put_region tables.old t r }
{
    let i = tables::thread(t, 12);
    tables[i] = tables[i] % 2 + 2 * u16::from(r.opened);
    tables[tables::thread(t, 13)] = r.newest;
}

// What a held load changes of it; or a crash, which has ended the open state already.
#[tactic(auto, unfolding(crate::specs::Regions::put_held))]
pub(crate) fn put_held(tables: &mut Tables, t: ThreadId, r: Region)
    ensures { tables.new ≡ put_held tables.old t r }
{
    tables[tables::thread(t, 13)] = r.newest;
}

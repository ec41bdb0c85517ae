// A thread's state: its queue, its counts of the stretch, and whether it is in a skip, columns 8 to 12 of its row, the
// last of which it shares with the open state (regions.rt), so that a load asks one number whether it counts. The
// methods hand the thread's new state back. The queue's stores are linked in the work area; here are its ends.
ghost use Rattle.std.specs.Prelude.{◌≡◌};
ghost use Rattle.machine.specs.Threads.{issued_t, committed_t, skipped_t, crashed_t, thread_of};
ghost use Rattle.machine.specs.Threads.{KeepsOldest, put_issued, put_committed, put_skip, put_oldest};
ghost use Rattle.machine.specs.Threads.{unseen, restarted};

use crate::places::ThreadId;
use crate::tables;
use crate::tables::Tables;

#[derive(Clone, Copy)]
pub struct Thread {
    // The oldest waiting store, 0 if there is none, as the tables hold it in two bytes; the newest store of the stretch,
    // waiting or not.
    pub oldest: u16,
    pub newest: u16,
    pub issued: u16,
    pub committed: u16,
    pub skip: bool,
}

impl Thread {
    // Store e joins the queue.
    #[tactic(auto, unfolding(crate::specs::Threads::issued_t, crate::specs::Threads::first_of))]
    pub(crate) fn issue(mut self, e: u16) -> Thread
        ensures { result ≡ issued_t self e }
    {
        self.issued = area::numbers::next_number(self.issued);
        if self.oldest == 0 {
            self.oldest = e;
        }
        self.newest = e;
        self
    }

    // The oldest store leaves the queue, and `next` is then the oldest.
    #[tactic(auto, unfolding(crate::specs::Threads::committed_t))]
    pub(crate) fn commit(mut self, next: u16) -> Thread
        ensures { result ≡ committed_t self next }
    {
        self.committed = area::numbers::next_number(self.committed);
        self.oldest = next;
        self
    }

    // A skip starts or ends.
    #[tactic(auto, unfolding(crate::specs::Threads::skipped_t))]
    pub(crate) fn with_skip(mut self, on: bool) -> Thread
        ensures { result ≡ skipped_t self on }
    {
        self.skip = on;
        self
    }

    // A crash "drops waiting stores, ends skips and starts counts afresh".
    pub(crate) fn crash(mut self) -> Thread
        ensures { result ≡ crashed_t self }
    {
        self.oldest = 0;
        self.newest = 0;
        self.issued = 0;
        self.committed = 0;
        self.skip = false;
        self
    }
}

// Thread t's state.
#[tactic(auto, unfolding(crate::specs::Threads::thread_of))]
pub(crate) fn thread_of(tables: &Tables, t: ThreadId) -> Thread
    ensures { result ≡ thread_of tables.now t }
{
    Thread {
        oldest: tables[tables::thread(t, 8)],
        newest: tables[tables::thread(t, 9)],
        issued: tables[tables::thread(t, 10)],
        committed: tables[tables::thread(t, 11)],
        skip: tables[tables::thread(t, 12)] % 2 != 0,
    }
}

// The oldest waiting store of thread t becomes `oldest`. Where a store waits already, that is `oldest` (`KeepsOldest`),
// so only an empty queue's number is stored: most issues then do without a store there.
fn put_oldest(tables: &mut Tables, t: ThreadId, oldest: u16)
    requires { KeepsOldest tables.old t oldest }
    ensures { tables.new ≡ put_oldest tables.old t oldest }
{
    if tables[tables::thread(t, 8)] != 0 {
        return;
    }
    tables[tables::thread(t, 8)] = oldest;
}

// Thread t's state becomes s: what an issue changes of it.
#[tactic(auto, unfolding(crate::specs::Threads::put_issued))]
pub(crate) fn put_issued(tables: &mut Tables, t: ThreadId, s: Thread)
    requires { KeepsOldest tables.old t s.oldest }
    ensures { tables.new ≡ put_issued tables.old t s }
{
    put_oldest(tables, t, s.oldest);
    tables[tables::thread(t, 9)] = s.newest;
    tables[tables::thread(t, 10)] = s.issued;
}

// What a commit changes.
#[tactic(auto, unfolding(crate::specs::Threads::put_committed))]
pub(crate) fn put_committed(tables: &mut Tables, t: ThreadId, s: Thread)
    ensures { tables.new ≡ put_committed tables.old t s }
{
    tables[tables::thread(t, 8)] = s.oldest;
    tables[tables::thread(t, 11)] = s.committed;
}

// What a skip changes.
#[tactic(auto, using(crate::proofs::Flags::skip_set_is), unfolding(crate::specs::Threads::put_skip))]
pub(crate) fn put_skip(tables: &mut Tables, t: ThreadId, s: Thread)
    ensures { tables.new ≡ put_skip tables.old t s }
{
    let i = tables::thread(t, 12);
    tables[i] = tables[i] / 2 * 2 + u16::from(s.skip);
}

// Thread t has seen nothing.
fn forget_seen(tables: &mut Tables, t: ThreadId)
    ensures { tables.new ≡ unseen 8 tables.old t }
{
    let from = tables::thread(t, 0);
    tables[from..from + 8].fill(0);
}

// What a crash changes: thread t has seen nothing, all of its state is s, and it is not open.
#[tactic(auto, using(crate::proofs::Flags::bit_is), unfolding(crate::specs::Threads::restarted))]
pub(crate) fn restart(tables: &mut Tables, t: ThreadId, s: Thread)
    ensures { tables.new ≡ restarted tables.old t s }
{
    forget_seen(tables, t);
    tables[tables::thread(t, 8)] = s.oldest;
    tables[tables::thread(t, 9)] = s.newest;
    tables[tables::thread(t, 10)] = s.issued;
    tables[tables::thread(t, 11)] = s.committed;
    tables[tables::thread(t, 12)] = u16::from(s.skip);
}

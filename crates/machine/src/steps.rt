// The steps: each makes the tests of its kind, in document 01's order, and turns the event away by the first that
// fails; else the event takes effect. An event that is turned away changes nothing. The caller sees to it that the
// machine's row is a row's begin, and that the begin's numbers are in range (`Fits`).
#![tactic(auto, using(crate::proofs::RuleLaws::of_steps), unfolding( // what the steps' contracts are made of
crate::specs::Outcomes::by_rule, crate::specs::Twin::ticked, // by the rules' answer
crate::specs::Effects::issue_w, crate::specs::Effects::commit_w, // stores
crate::specs::Effects::meet_w, crate::specs::Effects::cross_w, // loads
crate::specs::Twin::admits, crate::specs::Twin::admitted, // the source that a crossing load notes
crate::specs::Effects::aside_tables, crate::specs::Effects::aside_work, // a load that is held
crate::specs::Effects::crash_w, crate::specs::Twin::crashed, // crashes
crate::specs::Effects::skip_w, crate::specs::Effects::signal_w, // skips and signals
crate::specs::Effects::open_w, crate::specs::Effects::close_w, // regions
crate::specs::Effects::pass_w, // events with no effect
))]

ghost use Rattle.std.specs.Prelude.{◌≡◌, List, ℕ, ◌+◌, ◌≤◌, ◌<◌, length};
ghost use Rattle.machine.specs.Twin.{state_of, world, admits, admitted};
ghost use Rattle.machine.specs.Turning.{Fits};
ghost use Rattle.machine.specs.Outcomes.{outcome, issue_o, commit_o, only_o, plain_o, across_o, memory_o};
ghost use Rattle.machine.specs.Outcomes.{load_o, flush_o, fence_on_o, crash_o, switch_o, signal_o, wait_o, open_o};
ghost use Rattle.machine.specs.Outcomes.{locked_o, close_o, step_o};
ghost use Rattle.machine.specs.Effects.{aside_tables, aside_work};

use crate::forbidden::Forbidden;
use crate::places::{Location, ThreadId};
use crate::state::{Machine, Step};
use crate::tables::Tables;
use crate::{effects, regions, rules, tables, threads};
use record::Fields;

// Behind a crossing load of thread t that passed and does not count: if the thread is in no skip, it is open, and the
// load is held.
fn set_aside(tables: &mut Tables, work: &mut [u16], row: usize, t: ThreadId, x: Location, s: u16)
    requires { (row < 32768) × (row + 16 ≤ length work.old) }
    ensures tables_after { tables.new ≡ aside_tables tables.old row t 0 }
    ensures work_after { work.new ≡ aside_work tables.old work.old row t x s 0 }
{
    if !threads::thread_of(tables, t).skip {
        effects::hold(tables, work, row, t, x, s);
    }
}

impl Machine {
    fn issue(self, tables: &mut Tables, work: &mut [u16], t: u16, x: u16) -> Result<Step, Forbidden>
        requires { Fits self (length work.old) }
        ensures { outcome self result tables.new work.new
            ≡ issue_o (world (state_of self) tables.old work.old) t x }
    {
        let (t, x) = self.on_place(t, x)?;
        effects::issue(tables, work, self.row, t, x, self.stretch);
        Ok(self.pass(false))
    }

    fn commit(self, tables: &mut Tables, work: &mut [u16], t: u16) -> Result<Step, Forbidden>
        requires { Fits self (length work.old) }
        ensures { outcome self result tables.new work.new
            ≡ commit_o (world (state_of self) tables.old work.old) t }
    {
        let t = self.on_thread(t)?;
        let own = threads::thread_of(tables, t);
        if own.issued == own.committed {
            return Err(Forbidden::EmptyQueue);
        }
        effects::commit(tables, work, self.row, t, self.stretch);
        Ok(self.pass(false))
    }

    // A load whose source must be store `only`, of the stretch.
    fn load_only(
        self,
        tables: &mut Tables,
        work: &mut [u16],
        t: ThreadId,
        s: u16,
        only: u16,
    ) -> Result<Step, Forbidden>
        requires { Fits self (length work.old) × (self.row < 32768) }
        ensures { outcome self result tables.new work.new
            ≡ only_o (world (state_of self) tables.old work.old) t s only }
    {
        if s != only {
            return Err(Forbidden::WrongSource);
        }
        effects::meet(tables, work, self.row, t, s);
        Ok(self.pass(false))
    }

    // A crossing load at location x may have source s, which is then noted: the source that is noted, or one that fits.
    // The first is one of the second too; it is asked first since that is cheap.
    fn admit(self, tables: &mut Tables, work: &[u16], x: Location, s: u16) -> bool
        ensures value { result ≡ admits self.stretch self.row tables.old work.now x s }
        ensures tables_after { tables.new
            ≡ admitted self.stretch self.row tables.old work.now x s }
    {
        if s == tables[tables::source(x)] {
            return true;
        }
        if !self.fits_across(tables, work, x.number(), s) {
            return false;
        }
        tables[tables::source(x)] = s;
        true
    }

    // A crossing load that is not held yet. It brings no clock, and counts if its thread is in no skip and not open.
    #[inline(always)]
    fn load_plain(
        self,
        tables: &mut Tables,
        work: &mut [u16],
        t: ThreadId,
        x: Location,
        s: u16,
    ) -> Result<Step, Forbidden>
        requires { Fits self (length work.old) × (self.row < 32768) }
        ensures { outcome self result tables.new work.new
            ≡ plain_o (world (state_of self) tables.old work.old) t x s }
    {
        if !self.admit(tables, work, x, s) {
            return Err(Forbidden::WrongSource);
        }
        area::no_store(work, self.row);
        Ok(self.pass(regions::is_plain(tables, t)))
    }

    // A crossing load. Where it does not count and its thread is in no skip, the thread is open, and the load is held.
    #[inline(always)]
    fn load_across(
        self,
        tables: &mut Tables,
        work: &mut [u16],
        t: ThreadId,
        x: Location,
        s: u16,
    ) -> Result<Step, Forbidden>
        requires { Fits self (length work.old) × (self.row < 32768) }
        ensures { outcome self result tables.new work.new
            ≡ across_o (world (state_of self) tables.old work.old) t x s }
    {
        let step = self.load_plain(tables, work, t, x, s)?;
        if step.counted {
            return Ok(step);
        }
        set_aside(tables, work, self.row, t, x, s);
        Ok(step)
    }

    // A load where no store of its thread waits at the location: the last one committed in the stretch, or a crossing
    // load. Which store was committed last is asked only where the load must read it; the judge asks it for a crossing
    // load that counts. Marked, since with two callers the compiler would not take this into the judge's loop.
    #[inline(always)]
    fn load_memory(
        self,
        tables: &mut Tables,
        work: &mut [u16],
        t: ThreadId,
        x: Location,
        s: u16,
    ) -> Result<Step, Forbidden>
        requires { Fits self (length work.old) × (self.row < 32768) }
        ensures { outcome self result tables.new work.new
            ≡ memory_o (world (state_of self) tables.old work.old) t x s }
    {
        if tables[tables::stretch(x)] == self.stretch {
            let q = tables[tables::last(x)];
            return self.load_only(tables, work, t, s, q);
        }
        self.load_across(tables, work, t, x, s)
    }

    // The load rule: the newest waiting store, or what is in memory.
    fn load(
        self,
        tables: &mut Tables,
        work: &mut [u16],
        t: u16,
        x: u16,
        s: u16,
    ) -> Result<Step, Forbidden>
        requires { Fits self (length work.old) }
        ensures { outcome self result tables.new work.new
            ≡ load_o (world (state_of self) tables.old work.old) t x s }
    {
        let (t, x) = self.on_place(t, x)?;
        if let Some(p) = rules::waiting(tables, t, x) {
            return self.load_only(tables, work, t, s, p);
        }
        self.load_memory(tables, work, t, x, s)
    }

    // A locked operation: a load, then an issue and a commit. Its thread may have no waiting store.
    fn locked(
        self,
        tables: &mut Tables,
        work: &mut [u16],
        t: u16,
        x: u16,
        s: u16,
    ) -> Result<Step, Forbidden>
        requires { Fits self (length work.old) }
        ensures { outcome self result tables.new work.new
            ≡ locked_o (world (state_of self) tables.old work.old) t x s }
    {
        let (t, x) = self.on_place(t, x)?;
        if threads::thread_of(tables, t).oldest != 0 {
            return Err(Forbidden::QueueNotEmpty);
        }
        let r = self.load_memory(tables, work, t, x, s)?;
        effects::exchange(tables, work, self.row, t, x, s, self.stretch);
        Ok(r)
    }

    fn flush(self, work: &mut [u16], t: u16, x: u16) -> Result<Step, Forbidden>
        requires { Fits self (length work.old) }
        ensures { (tables : List ℕ) → outcome self result tables work.new
            ≡ flush_o (world (state_of self) tables work.old) t x }
    {
        self.on_place(t, x)?;
        area::no_store(work, self.row);
        Ok(self.pass(false))
    }

    // An sfence, or an mfence.
    fn fence(
        self,
        tables: &Tables,
        work: &mut [u16],
        t: u16,
        sfence: bool,
    ) -> Result<Step, Forbidden>
        requires { Fits self (length work.old) }
        ensures { outcome self result tables.now work.new
            ≡ fence_on_o (world (state_of self) tables.now work.old) sfence t }
    {
        let t = self.on_thread(t)?;
        rules::fence_rule(sfence, threads::thread_of(tables, t))?;
        area::no_store(work, self.row);
        Ok(self.pass(false))
    }

    fn crash(self, tables: &mut Tables, work: &mut [u16]) -> Result<Step, Forbidden>
        requires { Fits self (length work.old) }
        ensures { outcome self result tables.new work.new
            ≡ crash_o (world (state_of self) tables.old work.old) }
    {
        if 32768 <= self.row || self.stretch == 8 {
            return Err(Forbidden::PastLimit);
        }
        area::no_store(work, self.row);
        effects::finish(tables, self.stretch);
        Ok(self.next_stretch().pass(false))
    }

    // A skip starts or ends.
    fn skip(
        self,
        tables: &mut Tables,
        work: &mut [u16],
        t: u16,
        on: bool,
    ) -> Result<Step, Forbidden>
        requires { Fits self (length work.old) }
        ensures { outcome self result tables.new work.new
            ≡ switch_o (world (state_of self) tables.old work.old) on t }
    {
        let t = self.on_thread(t)?;
        let old = threads::thread_of(tables, t);
        rules::skip_rule(on, old.skip)?;
        area::no_store(work, self.row);
        threads::put_skip(tables, t, old.with_skip(on));
        Ok(self.pass(false))
    }

    // The thread may have no waiting stores.
    fn signal(self, tables: &Tables, work: &mut [u16], t: u16) -> Result<Step, Forbidden>
        requires { Fits self (length work.old) }
        ensures { outcome self result tables.now work.new
            ≡ signal_o (world (state_of self) tables.now work.old) t }
    {
        let t = self.on_thread(t)?;
        if threads::thread_of(tables, t).oldest != 0 {
            return Err(Forbidden::QueueNotEmpty);
        }
        effects::signal(tables, work, self.row, t, self.stretch);
        Ok(self.pass(false))
    }

    fn wait(self, tables: &mut Tables, work: &mut [u16], t: u16, s: u16) -> Result<Step, Forbidden>
        requires { Fits self (length work.old) }
        ensures { outcome self result tables.new work.new
            ≡ wait_o (world (state_of self) tables.old work.old) t s }
    {
        let t = self.on_thread(t)?;
        if !self.signalled(work, s) {
            return Err(Forbidden::NoSignal);
        }
        effects::meet(tables, work, self.row, t, s);
        Ok(self.pass(false))
    }

    fn open_region(self, tables: &mut Tables, work: &mut [u16], t: u16) -> Result<Step, Forbidden>
        requires { Fits self (length work.old) }
        ensures { outcome self result tables.new work.new
            ≡ open_o (world (state_of self) tables.old work.old) t }
    {
        let t = self.on_new(t)?;
        let old = regions::region_of(tables, t);
        if old.opened {
            return Err(Forbidden::SwitchedAlready);
        }
        area::no_store(work, self.row);
        regions::put_region(tables, t, old.begin());
        Ok(self.pass(false))
    }

    // A close with its outcome, `res`: at 1 the loads that its thread holds count, if there is one.
    fn close_region(
        self,
        tables: &mut Tables,
        work: &mut [u16],
        t: u16,
        res: u16,
    ) -> Result<Step, Forbidden>
        requires { Fits self (length work.old) }
        ensures { outcome self result tables.new work.new
            ≡ close_o (world (state_of self) tables.old work.old) t res }
    {
        let t = self.on_new(t)?;
        let old = regions::region_of(tables, t);
        rules::close_rule(res, old.opened)?;
        area::no_store(work, self.row);
        regions::put_region(tables, t, old.end());
        Ok(self.pass(rules::close_counts(res, old.newest)))
    }

    // A later event, by its kind and fields.
    #[tactic(auto, unfolding(crate::specs::Outcomes::step_o, crate::specs::Arms::by_kind))]
    pub fn step(
        self,
        tables: &mut Tables,
        work: &mut [u16],
        kind: u16,
        f: Fields,
    ) -> Result<Step, Forbidden>
        requires { Fits self (length work.old) }
        ensures { outcome self result tables.new work.new
            ≡ step_o (world (state_of self) tables.old work.old) kind f }
    {
        let t = f.thread;
        match kind {
            2 => self.issue(tables, work, t, f.location),
            3 => self.commit(tables, work, t),
            4 => self.load(tables, work, t, f.location, f.source),
            5..=6 => self.flush(work, t, f.location),
            7..=8 => self.fence(tables, work, t, kind == 7),
            9 => self.crash(tables, work),
            10..=11 => self.skip(tables, work, t, kind == 10),
            12 => self.locked(tables, work, t, f.location, f.source),
            13 => self.signal(tables, work, t),
            14 => self.wait(tables, work, t, f.source),
            15 => self.open_region(tables, work, t),
            16 => self.close_region(tables, work, t, f.outcome),
            _ => Err(Forbidden::LaterBegin),
        }
    }
}

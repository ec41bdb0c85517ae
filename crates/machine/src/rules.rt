// What turns an event away, in the documents' order, and the searches of the load rule and of the rule of waits. A test
// of the place first asks whether the event passes, and only then by which number it does not: one that answers its
// number at once is slower.
ghost use Rattle.std.specs.Prelude.{◌≡◌, ℕ, ◌<◌, ◌≤◌, MatchResult, MatchOption, ◌≢◌, ◌⊎◌};
ghost use Rattle.machine.specs.Forbidden.{number_of, turned_by};
ghost use Rattle.machine.specs.Twin.{state_of, waiting_in, past_in, across_in, signalled_in};
ghost use Rattle.machine.specs.Turning.{thread_fits, place_fits, place_refusal, on_thread, on_place, on_new};
ghost use Rattle.machine.specs.Turning.{fence_on, switch_by, close_by, close_counts};
ghost use Rattle.machine.specs.Turning.{begin_rule, begin_k};

use crate::forbidden::Forbidden;
use crate::places::{Location, ThreadId};
use crate::state::Machine;
use crate::tables::Tables;
use crate::threads::Thread;
use crate::{tables, threads};
use record::Fields;

// ---- the load rule

// The newest waiting store of thread t at location x: the thread's newest store there, unless the oldest that waits
// came later.
#[tactic(auto, unfolding(crate::specs::Twin::waiting_in))]
pub(crate) fn waiting(tables: &Tables, t: ThreadId, x: Location) -> Option<u16>
    ensures { MatchOption result (waiting_in tables.now t x ≡ 0)
        (λ p. (p ≡ waiting_in tables.now t x) × (p ≢ 0)) }
{
    let own = threads::thread_of(tables, t);
    if own.oldest == 0 {
        return None;
    }
    let p = tables[tables::newest(x, t)];
    if own.oldest <= p { Some(p) } else { None }
}

impl Machine {
    // Store s is to location x and committed in an earlier stretch.
    #[tactic(auto, unfolding(crate::specs::Twin::past_in))]
    fn past(self, tables: &Tables, work: &[u16], x: u16, s: u16) -> bool
        ensures { result ≡ past_in self.stretch tables.now work.now x s }
    {
        let j = area::row_get(work, s, 10);
        let t = area::row_get(work, s, 8);
        j != 0
            && j < self.stretch
            && area::row_get(work, s, 9) == x
            && area::row_get(work, s, t) <= tables[tables::commits(j, t)]
    }

    // A crossing load at location x may have source s: none, or an earlier event that is a store to x, committed in an
    // earlier stretch.
    #[tactic(auto, unfolding(crate::specs::Twin::across_in))]
    pub(crate) fn fits_across(self, tables: &Tables, work: &[u16], x: u16, s: u16) -> bool
        ensures { result ≡ across_in self.stretch self.row tables.now work.now x s }
    {
        s == 0 || (16 * usize::from(s) <= self.row && self.past(tables, work, x, s))
    }

    // ---- waits

    // The source of a wait is an earlier signal of its stretch.
    #[tactic(auto, unfolding(crate::specs::Twin::signalled_in))]
    pub(crate) fn signalled(self, work: &[u16], s: u16) -> bool
        ensures { result ≡ signalled_in self.stretch self.row work.now s }
    {
        s != 0 && 16 * usize::from(s) <= self.row && area::row_get(work, s, 11) == self.stretch
    }

    // ---- the rules that kinds share

    // The event is at most the 2,048th, and there is such a thread.
    fn thread_fits(self, t: u16) -> bool
        ensures { result ≡ thread_fits self.threads self.row t }
    {
        self.row < 32768 && t < self.threads
    }

    // And there is such a location.
    fn place_fits(self, t: u16, x: u16) -> bool
        ensures { result ≡ place_fits self.threads self.locations self.row t x }
    {
        self.thread_fits(t) && x < self.locations
    }

    // What turns an event away for which one of these tests failed.
    fn place_refusal(self, t: u16) -> Forbidden
        ensures { number_of result ≡ place_refusal self.threads self.row t }
    {
        if self.row < 32768 {
            return if self.threads <= t {
                Forbidden::NoThread
            } else {
                Forbidden::NoLocation
            };
        }
        Forbidden::PastLimit
    }

    // What turns an event of thread t away before any rule of its kind.
    pub(crate) fn on_thread(self, t: u16) -> Result<ThreadId, Forbidden>
        requires { self.threads ≤ 8 }
        ensures { MatchResult result
            (λ r. ((later : ℕ) → on_thread (state_of self) t later ≡ later)
            × (self.row < 32768) × (r ≡ t))
            (λ e. (later : ℕ) → on_thread (state_of self) t later ≡ number_of e) }
    {
        if self.thread_fits(t) {
            Ok(ThreadId::of(t))
        } else {
            Err(self.place_refusal(t))
        }
    }

    // So of an event at location x.
    pub(crate) fn on_place(self, t: u16, x: u16) -> Result<(ThreadId, Location), Forbidden>
        requires { (self.threads ≤ 8) × (self.locations ≤ 256) }
        ensures { MatchResult result
            (λ r. ((later : ℕ) → on_place (state_of self) t x later ≡ later)
            × (self.row < 32768) × (r.0 ≡ t) × (r.1 ≡ x))
            (λ e. (later : ℕ) → on_place (state_of self) t x later ≡ number_of e) }
    {
        if self.place_fits(t, x) {
            Ok((ThreadId::of(t), Location::of(x)))
        } else {
            Err(self.place_refusal(t))
        }
    }

    // So of an open or a close, which version 2 admits.
    pub(crate) fn on_new(self, t: u16) -> Result<ThreadId, Forbidden>
        requires { self.threads ≤ 8 }
        ensures { MatchResult result
            (λ r. ((later : ℕ) → on_new (state_of self) (on_thread (state_of self) t later) ≡ later)
            × (self.row < 32768) × (r ≡ t))
            (λ e. (later : ℕ) → on_new (state_of self) (on_thread (state_of self) t later) ≡ number_of e) }
    {
        if self.version < 2 {
            return Err(Forbidden::UnknownKind);
        }
        self.on_thread(t)
    }
}

// ---- fences

// "mfence, queue not empty". An sfence has no rule of its own.
pub(crate) fn fence_rule(sfence: bool, own: Thread) -> Result<(), Forbidden>
    ensures { turned_by result ≡ fence_on sfence own }
{
    if sfence || own.issued == own.committed {
        Ok(())
    } else {
        Err(Forbidden::QueueNotEmpty)
    }
}

// ---- skips

// "skip already on, or already off".
pub(crate) fn skip_rule(on: bool, skip: bool) -> Result<(), Forbidden>
    ensures { turned_by result ≡ switch_by on skip }
{
    if skip == on {
        Err(Forbidden::SwitchedAlready)
    } else {
        Ok(())
    }
}

// ---- regions under a checksum

// Another outcome than 0 or 1; "close when not" open.
pub(crate) fn close_rule(outcome: u16, opened: bool) -> Result<(), Forbidden>
    ensures { turned_by result ≡ close_by outcome opened }
{
    if 1 < outcome {
        return Err(Forbidden::NoOutcome);
    }
    if opened {
        Ok(())
    } else {
        Err(Forbidden::SwitchedAlready)
    }
}

// Loads count as of a close: its outcome is 1, and something is held.
pub(crate) fn close_counts(outcome: u16, newest: u16) -> bool
    ensures { result ≡ close_counts outcome newest }
{
    outcome == 1 && newest != 0
}

// ---- the begin

// "begin field out of range": from 1 to `top`.
fn in_range(x: u16, top: u16) -> Result<(), Forbidden>
    ensures { MatchResult result (λ _. (1 ≤ x) × (x ≤ top))
        (λ e. (number_of e ≡ 6) × ((x < 1) ⊎ (top < x))) }
{
    if (1..=top).contains(&x) {
        Ok(())
    } else {
        Err(Forbidden::OutOfRange)
    }
}

// So of all fields.
#[tactic(auto, unfolding(crate::specs::Turning::begin_rule))]
fn begin_rule(version: u16, threads: u16, locations: u16) -> Result<(), Forbidden>
    ensures { turned_by result ≡ begin_rule version threads locations }
{
    in_range(version, 2)?;
    in_range(threads, 8)?;
    in_range(locations, 256)
}

// What turns the first record away, by its kind and fields.
#[tactic(auto, unfolding(crate::specs::Turning::begin_k))]
pub fn begin_refusal(kind: u16, f: Fields) -> Result<(), Forbidden>
    ensures { turned_by result ≡ begin_k kind f }
{
    if kind != 1 {
        return Err(Forbidden::NoBegin);
    }
    begin_rule(f.version, f.threads, f.locations)
}

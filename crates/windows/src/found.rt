// What the records so far say of each thread. A thread is found by a remainder, so every number has a place.
ghost use Rattle.std.specs.Prelude.{◌≡◌, map};
ghost use Rattle.windows.specs.Finding.{window_in, noted_missing, noted_store, noted_source};

use model::Window;

// A thread's first place, and the last store behind it that is the observed one or happens before it, as far as they
// are found.
#[derive(Clone, Copy, Default)]
pub struct Ends {
    pub first: Option<u16>,
    pub last: Option<u16>,
}

impl Ends {
    fn window(self) -> Option<Window>
        ensures { result ≡ window_in self }
    {
        Some(Window {
            first: self.first?,
            last: self.last?,
        })
    }
}

// The ends of threads 0 to 7.
#[derive(Clone, Copy)]
pub struct Found {
    pub threads: [Ends; 8],
}

impl Found {
    // Behind the missing store p, which is thread t's own: that thread's first place is right behind it.
    pub(crate) fn behind_missing(t: u16, p: u16) -> Found
        ensures { result.threads ≡ noted_missing t p }
    {
        let mut threads = [Ends::default(); 8];
        threads[usize::from(t % 8)].first = Some(area::numbers::next_number(p));
        Found { threads }
    }

    // If event e is the observed store q or a store that happens before it, it is its thread's last place so far,
    // provided that the thread has its first. A store is known by its row, whose stretch is not 0.
    pub(crate) fn note_store(&mut self, work: &[u16], q: u16, e: u16)
        ensures { self.new.threads ≡ noted_store work.now q self.old.threads e }
    {
        if !area::covers(work, e, q) {
            return;
        }
        let ends = &mut self.threads[usize::from(area::row_get(work, e, 8) % 8)];
        if ends.first.is_some() {
            ends.last = Some(e);
        }
    }

    // Event e of thread t loads from store s or waits for signal s, in the stretch of the missing store p. If s is p or
    // its clock covers p, and nothing earlier brought p to the thread, its first place is right behind e. No number
    // below p is such a store or signal; one that is not below it is of the stretch.
    pub(crate) fn note_source(&mut self, work: &[u16], p: u16, e: u16, t: u16, s: u16)
        ensures { self.new.threads ≡ noted_source work.now p self.old.threads e t s }
    {
        let ends = &mut self.threads[usize::from(t % 8)];
        if ends.first.is_none() && p <= s && area::clock_covers(work, p, s) {
            ends.first = Some(area::numbers::next_number(e));
        }
    }

    pub(crate) fn windows(self) -> [Option<Window>; 8]
        ensures { result ≡ map window_in self.threads }
    {
        self.threads.map(|ends| ends.window())
    }
}

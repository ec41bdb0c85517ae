// What the judge calls for a load that counts as of its own event. One that repeats the last counted load of its
// location, with no commit there since and with its source, changes nothing, so it does not walk its location's chain
// again. The first event that breaks the trace is recorded; no load after it is judged, so the marks stay as it left
// them.
ghost use Rattle.std.specs.Prelude.{◌≡◌, ◌≤◌, length};
ghost use Rattle.area.specs.Cells.{event_at};
ghost use Rattle.marks.specs.Judged.{repeated, noted, judged};

use crate::cells;
use crate::cells::Marks;
use crate::rows::Rows;

// A load of a location: the head of the chain that it found there, its last store, and its source.
#[derive(Clone, Copy)]
pub struct Load {
    pub head: u16,
    pub location: u16,
    pub source: u16,
}

impl Marks {
    // The load noted at its location has its head and its source.
    pub(crate) fn repeats(&self, load: Load) -> bool
        ensures { result ≡ repeated self.now load.head load.location load.source }
    {
        let at = cells::location(load.location);
        self.last[at] == load.head && self.source[at] == load.source
    }

    // It is noted at its location.
    #[tactic(auto, unfolding(crate::specs::Judged::noted))]
    pub(crate) fn note(&mut self, load: Load)
        ensures { self.new ≡ noted self.old load.head load.location load.source }
    {
        let at = cells::location(load.location);
        self.last[at] = load.head;
        self.source[at] = load.source;
    }

    // A load that counts, the event whose row begins at `row`.
    #[tactic(auto, unfolding(crate::specs::Judged::judged))]
    pub fn judge_load(&mut self, rows: &[u16], load: Load, row: usize)
        requires { (row ≤ 32768) × (32768 ≤ length rows.now) }
        ensures { self.new ≡ judged rows.now self.old load.head load.location load.source (event_at row) }
    {
        if self.repeats(load) {
            return;
        }
        if self.broken.is_some() {
            return;
        }
        let breaks = self.load(&Rows::of(rows), load.head, load.source);
        self.note(load);
        if breaks {
            self.broken = Some(area::event_at(row));
        }
    }
}

// What the judge calls for a close: the loads that its thread holds are marked one after the other, and only then is
// the event recorded if with them there is a pair. Loads of one location that found the same chain and follow one
// another walk it once in all: what is noted of them is the oldest of their sources, where their walks ended so far,
// and the next walk goes on from there.
ghost use Rattle.std.specs.Prelude.{◌≡◌, ◌≤◌, length};
ghost use Rattle.area.specs.Cells.{event_at};
ghost use Rattle.marks.specs.Marking.{loaded};
ghost use Rattle.marks.specs.Judged.{older_in, start_of, deepest_of, held_at, all_held, pair_in, judged_held};

use crate::cells;
use crate::cells::Marks;
use crate::judged::Load;
use crate::rows::Rows;

// Store s was committed before store d; 0 stands behind all.
fn older(rows: &Rows, s: u16, d: u16) -> bool
    ensures { result ≡ older_in rows.now s d }
{
    d != 0 && (s == 0 || rows.committed_at(s) < rows.committed_at(d))
}

impl Marks {
    // Where a load's walk starts, and the source to note. It starts at the head; or where the walks there ended so far,
    // if its source is older; or nowhere, which is at its source. To note is the oldest source that loads of that chain
    // have walked to.
    fn segment(&self, rows: &Rows, load: Load) -> (u16, u16)
        ensures { (result.0 ≡ start_of rows.now self.now load.head load.location load.source)
            × (result.1 ≡ deepest_of rows.now self.now load.head load.location load.source) }
    {
        let at = cells::location(load.location);
        let s = load.source;
        if self.last[at] != load.head {
            return (load.head, s);
        }
        let d = self.source[at];
        if older(rows, s, d) { (d, s) } else { (s, d) }
    }

    // The chain from `first` on is walked up to s, and s becomes observed. `load` does this and more, but called from
    // here too it would be left out of the run, which costs up to 28 instructions more of a hundred (checksums).
    #[tactic(auto, unfolding(crate::specs::Marking::loaded))]
    fn mark_from(&mut self, rows: &Rows, first: u16, s: u16)
        ensures { self.new ≡ loaded rows.now self.old first s }
    {
        self.walk(rows, first, s);
        if s != 0 {
            let j = rows.get(s, 10);
            self.see(rows, s, j);
        }
    }

    // The held load k: its row has its location in column 9, its source in 13, and in 14 the head of the chain it
    // found.
    fn mark_held(&mut self, rows: &Rows, k: u16)
        ensures { self.new ≡ held_at rows.now self.old k }
    {
        let load = Load {
            head: rows.get(k, 14),
            location: rows.get(k, 9),
            source: rows.get(k, 13),
        };
        if self.repeats(load) {
            return;
        }
        let (first, source) = self.segment(rows, load);
        self.note(Load { source, ..load });
        self.mark_from(rows, first, load.source);
    }

    // The held loads from `newest` on, which the links of column 15 lead to. At most 2,048 loads count as of an event.
    fn mark_all(&mut self, rows: &Rows, newest: u16)
        ensures { self.new ≡ all_held 2048 rows.now self.old newest }
    {
        let mut k = newest;
        for n in 0..2048u16 {
            if k == 0 {
                break;
            }
            self.mark_held(rows, k);
            k = rows.get(k, 15);
        }
    }

    // There is a pair: a forbidden store is in the cut, of whichever stretch.
    fn pair(&self) -> bool
        ensures { result ≡ pair_in self.now }
    {
        (1..8).any(|j| self.hits(j))
    }

    // The held loads from `newest` on, which count as of the event whose row begins at `row`.
    #[tactic(auto, unfolding(crate::specs::Judged::judged_held))]
    pub fn judge_held(&mut self, rows: &[u16], newest: u16, row: usize)
        requires { (row ≤ 32768) × (32768 ≤ length rows.now) }
        ensures { self.new ≡ judged_held rows.now self.old newest (event_at row) }
    {
        if self.broken.is_some() {
            return;
        }
        self.mark_all(&Rows::of(rows), newest);
        if self.pair() {
            self.broken = Some(area::event_at(row));
        }
    }
}

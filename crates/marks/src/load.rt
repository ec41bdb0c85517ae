// A counted load: the walk along its location's chain, and the observation of its source.
ghost use Rattle.std.specs.Prelude.{◌≡◌};
ghost use Rattle.marks.specs.Marking.{seen_from, loaded};
ghost use Rattle.marks.specs.Testing.{load_hits};

use crate::cells::Marks;
use crate::rows::Rows;
use crate::{cells, flags};

impl Marks {
    // Store s, of stretch j, becomes observed: its flag, and the cut of its stretch.
    #[tactic(auto, unfolding(crate::specs::Marking::seen_from))]
    pub(crate) fn see(&mut self, rows: &Rows, s: u16, j: u16)
        ensures { self.new ≡ seen_from rows.now self.old s j }
    {
        let i = cells::flag(s);
        self.flags[i] = flags::observe(self.flags[i]);
        rows.join(&mut self.cut, cells::thread(j, 0), s);
    }

    // A counted load from s of the location whose chain begins with store h. It answers whether with it there is a
    // pair, if there was none.
    #[tactic(auto, unfolding(crate::specs::Marking::loaded, crate::specs::Testing::load_hits))]
    pub(crate) fn load(&mut self, rows: &Rows, h: u16, s: u16) -> bool
        ensures value { result ≡ load_hits rows.now self.old h s }
        ensures marks_after { self.new ≡ loaded rows.now self.old h s }
    {
        let walk_hits = self.walk(rows, h, s);
        if s == 0 {
            return walk_hits;
        }
        let j = rows.get(s, 10);
        self.see(rows, s, j);
        walk_hits || self.hits(j)
    }
}

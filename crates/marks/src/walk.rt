// The stores on a location's chain become forbidden, from the newest back to a load's source.
ghost use Rattle.std.specs.Prelude.{◌≡◌};
ghost use Rattle.marks.specs.Marking.{marked, walked};
ghost use Rattle.marks.specs.Testing.{in_cut, walk_hits};

use crate::cells::Marks;
use crate::rows::Rows;
use crate::{cells, flags};

impl Marks {
    // Store p becomes forbidden: its flag, and the lowest place of its stretch and thread. It answers whether p is in
    // the cut.
    #[tactic(auto, unfolding(crate::specs::Marking::marked))]
    fn mark(&mut self, rows: &Rows, p: u16) -> bool
        ensures value { result ≡ in_cut rows.now self.old.cut p }
        ensures marks_after { self.new ≡ marked rows.now self.old p }
    {
        let j = rows.get(p, 10);
        let t = rows.get(p, 8);
        let own = rows.get(p, t);
        let i = cells::flag(p);
        self.flags[i] = flags::forbid(self.flags[i]);
        let at = cells::thread(j, t);
        self.low[at] = flags::lower(self.low[at], own);
        own <= self.cut[at]
    }

    // Each store of the chain from `first` on, up to `stop`; a chain has at most 2,048 stores. It answers whether one
    // is in the cut, and goes on behind such a store, since the evidence is looked for among all marks.
    pub(crate) fn walk(&mut self, rows: &Rows, first: u16, stop: u16) -> bool
        ensures value { result ≡ walk_hits 2048 rows.now self.old.cut first stop }
        ensures marks_after { self.new ≡ walked 2048 rows.now self.old first stop }
    {
        let mut p = first;
        let mut hit = false;
        for n in 0..2048u16 {
            if p == 0 || p == stop {
                break;
            }
            let next = rows.get(p, 14);
            hit |= self.mark(rows, p);
            p = next;
        }
        hit
    }
}

// The evidence of a broken trace: the smallest store that is forbidden and in the cut, and the smallest observed store
// that is it or happens after it. An event's flags are looked at before its row, so only rows of stores are read.
ghost use Rattle.std.specs.Prelude.{◌≡◌};
ghost use Rattle.marks.specs.Testing.{missing_in, observed_in, missing_by, observed_by};

use crate::cells;
use crate::cells::Marks;

impl Marks {
    // Store p is the missing one of a pair: it is forbidden, and in the cut. Its row has its place plus one in the
    // column of its own thread.
    fn missing_in(&self, rows: &[u16], p: u16) -> bool
        ensures { result ≡ missing_in rows.now self.now p }
    {
        if self.flags[cells::flag(p)] % 2 == 0 {
            return false;
        }
        let t = area::row_get(rows, p, 8);
        let own = area::row_get(rows, p, t);
        let j = area::row_get(rows, p, 10);
        own <= self.cut[cells::thread(j, t)]
    }

    // Store q is the observed one of a pair with m: it is observed, and is m or happens after it.
    fn observed_in(&self, rows: &[u16], m: u16, q: u16) -> bool
        ensures { result ≡ observed_in rows.now self.now.flags m q }
    {
        self.flags[cells::flag(q)] >= 2 && area::covers(rows, m, q)
    }

    // Over the events below n; n if there is none, which is what `first` of crate model gives.
    pub fn missing(&self, rows: &[u16], n: u16) -> u16
        ensures { result ≡ missing_by rows.now self.now n }
    {
        (0..n).find(|p| self.missing_in(rows, *p)).unwrap_or(n)
    }

    // For the missing store m, over the events below n; n if there is none, likewise.
    pub fn observed(&self, rows: &[u16], n: u16, m: u16) -> u16
        ensures { result ≡ observed_by rows.now self.now.flags n m }
    {
        (0..n).find(|q| self.observed_in(rows, m, *q)).unwrap_or(n)
    }
}

// The test for broken: some lowest forbidden place is below the cut.
ghost use Rattle.std.specs.Prelude.{◌≡◌};
ghost use Rattle.marks.specs.Testing.{hit, hits};

use crate::cells;
use crate::cells::Marks;

// `low` is one more than the lowest place, or 0.
fn hit(low: u16, cut: u16) -> bool
    ensures { result ≡ hit low cut }
{
    low != 0 && low <= cut
}

impl Marks {
    // Of stretch j and whichever thread: all eight are looked at, so that the compiler compares them at once.
    #[tactic(auto, unfolding(model::specs::Search::some))]
    pub(crate) fn hits(&self, j: u16) -> bool
        ensures { result ≡ hits self.now j }
    {
        let at = cells::thread(j, 0);
        let mut any = false;
        for t in 0..8 {
            any |= hit(self.low[at + t], self.cut[at + t]);
        }
        any
    }
}

// The end of a robust trace: the cut buffer, and the share.
ghost use Rattle.std.specs.Prelude.{◌≡◌, ◌*◌, ◌≤◌, min, length};
ghost use Rattle.model.specs.Answers.{percent};
ghost use Rattle.marks.specs.Ending.{copied, stores_in};

use crate::cells::Marks;

impl Marks {
    // The least choice's 56 counts into the cut buffer.
    pub fn copy_cut(&self, out: &mut [u16])
        requires { length out.old ≡ 56 }
        ensures { out.new ≡ copied 56 self.now.cut out.old }
    {
        out.copy_from_slice(&self.cut[8..64]);
    }

    // The stores that are in the least choice.
    pub fn stores_in(&self) -> u32
        ensures { (result ≡ stores_in self.now.cut) × (result ≤ 65535 * 56) }
    {
        area::total(&self.cut, 8)
    }
}

// The percentage of `total` that `part` is, rounded down; 100 of none.
pub fn percentage(part: u32, total: u32) -> u16
    requires { part ≤ 65535 * 56 }
    ensures { result ≡ min (percent part total) 65535 }
{
    if total == 0 {
        100
    } else {
        (100 * part / total).min(65535) as u16
    }
}

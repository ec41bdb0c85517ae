// A count that goes on by one.
ghost use Rattle.std.specs.Prelude.{◌≡◌};
ghost use Rattle.area.specs.Cells.{up};

// One more, and 0 after 65,535.
#[tactic(auto, unfolding(crate::specs::Cells::up))]
pub fn next_number(x: u16) -> u16
    ensures { result ≡ up x }
{
    x.wrapping_add(1)
}

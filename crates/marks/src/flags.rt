// Flags of an event, 1 forbidden and 2 observed; the lower of two places. The flags' arithmetic is that of `forbid` and
// `observe` of specs/Marking.antt, which say it of every byte, also of one that no event has: `f | 2` is another there.
ghost use Rattle.std.specs.Prelude.{◌≡◌};
ghost use Rattle.marks.specs.Marking.{forbid, observe, lower};

pub fn forbid(f: u8) -> u8
    ensures { result ≡ forbid f }
{
    f / 2 * 2 + 1
}

pub fn observe(f: u8) -> u8
    ensures { result ≡ observe f }
{
    if f < 2 { f + 2 } else { f }
}

// The lower of two numbers that are one more than a place; 0 is none.
pub fn lower(old: u16, new: u16) -> u16
    ensures { result ≡ lower old new }
{
    if old == 0 { new } else { old.min(new) }
}

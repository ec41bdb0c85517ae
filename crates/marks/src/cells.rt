// The marks: the cut and the lowest forbidden places, eight numbers for each stretch; of each location its last counted
// load; the load that breaks the trace; and the flags of each event. specs/Marks.antt has the places. Remainders keep
// every place inside its array without a test. A place is a function's answer, since it serves reads, stores and where
// a clock is joined.
ghost use Rattle.std.specs.Prelude.{◌≡◌, ◌<◌};
ghost use Rattle.marks.specs.Marks.{no_marks, thread_cell, location_cell, flag_cell, broken_at};

// Arrays of a known size, so that no call asks for room.
#[derive(Clone, Copy, Debug, PartialEq, Eq)]
pub struct Marks {
    // The least choice's count for each stretch and thread.
    pub cut: [u16; 64],
    // One more than the lowest place of a forbidden store of each stretch and thread; 0 if there is none, so that eight
    // are compared at once.
    pub low: [u16; 64],
    // Of the last counted load at each location, the last store committed there before it.
    pub last: [u16; 256],
    // Its source.
    pub source: [u16; 256],
    // The load that breaks the trace.
    pub broken: Option<u16>,
    pub flags: [u8; 2048],
}

impl Marks {
    // Before the first event.
    pub fn new() -> Marks
        ensures { result ≡ no_marks }
    {
        Marks {
            cut: [0; 64],
            low: [0; 64],
            last: [0; 256],
            source: [0; 256],
            broken: None,
            flags: [0; 2048],
        }
    }

    // The load that breaks the trace.
    pub fn broken_at(&self) -> Option<u16>
        ensures { result ≡ broken_at self.now }
    {
        self.broken
    }
}

// Where the numbers of stretch j and thread t stand.
pub(crate) fn thread(j: u16, t: u16) -> usize
    ensures { (result ≡ thread_cell j t) × (result < 64) }
{
    (8 * usize::from(j) + usize::from(t)) % 64
}

// Where the numbers of location x stand.
pub(crate) fn location(x: u16) -> usize
    ensures { (result ≡ location_cell x) × (result < 256) }
{
    usize::from(x % 256)
}

// The flags of event p.
pub(crate) fn flag(p: u16) -> usize
    ensures { (result ≡ flag_cell p) × (result < 2048) }
{
    usize::from(p) % 2048
}

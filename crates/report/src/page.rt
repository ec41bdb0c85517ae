// Text put on a page: bytes stored one after the other at the start of a buffer. Where the buffer is full, bytes are
// left out and the position stays, so that none of the methods asks for room; that a report always has room follows
// from how many bytes each says it puts at most. No `write!`: no clause of the library says that one succeeds, and a
// report cannot fail.
ghost use Rattle.std.specs.Prelude.{◌≡◌, [], ◌∷◌, length};
ghost use Rattle.report.specs.Decimal.{digits};
ghost use Rattle.report.specs.Page.{Puts, IsStart};

// A buffer, and the position up to which it is written.
#[derive(Drop)]
pub(crate) struct Page<'a> {
    out: &'a mut [u8],
    at: usize,
}

impl<'a> Page<'a> {
    // A page with nothing on it.
    pub(crate) fn new(out: &'a mut [u8]) -> Page<'a>
        ensures { IsStart out.entry result }
    {
        Page { out, at: 0 }
    }

    // One byte, if there is room.
    pub(crate) fn put(&mut self, b: u8)
        ensures { Puts self.old (b ∷ []) 1 self.new }
    {
        if self.at < self.out.len() {
            self.out[self.at] = b;
            self.at += 1;
        }
    }

    // A text.
    pub(crate) fn text(&mut self, s: &[u8])
        ensures { Puts self.old s.now (length s.now) self.new }
    {
        for b in s {
            self.put(*b);
        }
    }

    // A number in decimal.
    fn number(&mut self, v: u16)
        ensures { Puts self.old (digits v) 5 self.new }
    {
        if v >= 10 {
            self.number(v / 10);
        }
        self.put(b'0' + (v % 10) as u8);
    }

    // A space and a number.
    pub(crate) fn field(&mut self, v: u16)
        ensures { Puts self.old (32 ∷ digits v) 6 self.new }
    {
        self.put(b' ');
        self.number(v);
    }

    // How many bytes are written.
    pub(crate) fn len(&self) -> usize
        ensures { result ≡ self.now.at }
    {
        self.at
    }
}

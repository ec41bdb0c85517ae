// The machine's state by value, and what an event that passes makes of it.
ghost use Rattle.std.specs.Prelude.{◌≡◌, ◌+◌, ◌<◌};
ghost use Rattle.machine.specs.Twin.{next_stretch};

// Where the row of the next event begins, the stretch, and what the begin said.
#[derive(Clone, Copy)]
pub struct Machine {
    pub row: usize,
    pub stretch: u16,
    pub version: u16,
    pub threads: u16,
    pub locations: u16,
}

// After an event that passes: the machine, which the caller takes on to the next row, and whether loads count as of the
// event: a load itself, or at a close those that its thread holds.
#[derive(Clone, Copy)]
pub struct Step {
    pub machine: Machine,
    pub counted: bool,
}

impl Machine {
    // In the stretch after this one.
    pub(crate) fn next_stretch(mut self) -> Machine
        ensures { result ≡ next_stretch self }
    {
        self.stretch = area::numbers::next_number(self.stretch);
        self
    }

    // The event passes.
    pub(crate) fn pass(self, counted: bool) -> Step
        ensures { result ≡ record { machine = self; counted = counted } }
    {
        Step {
            machine: self,
            counted,
        }
    }
}

// What turns an event away, by the documents' rules.
ghost use Rattle.std.specs.Prelude.{◌≡◌};
ghost use Rattle.machine.specs.Forbidden.{number_of};

#[derive(Clone, Copy, Debug, PartialEq, Eq)]
pub enum Forbidden {
    // "the first record is no begin"
    NoBegin = 1,
    // "unknown kind": one that the trace's version does not know
    UnknownKind = 3,
    // "later begin"
    LaterBegin = 5,
    // "begin field out of range"
    OutOfRange = 6,
    // "no such thread"
    NoThread = 7,
    // "no such location"
    NoLocation = 8,
    // "source against the load rule"
    WrongSource = 9,
    // "commit, empty queue"
    EmptyQueue = 10,
    // "mfence, queue not empty"; a locked operation or a signal with waiting stores
    QueueNotEmpty = 11,
    // "skip already on, or already off"; "open when open", "close when not"
    SwitchedAlready = 12,
    // "event 2,049, or eighth crash"
    PastLimit = 13,
    // a wait whose source is no earlier signal of the same stretch
    NoSignal = 18,
    // a close whose outcome is neither 0 nor 1
    NoOutcome = 19,
}

impl Forbidden {
    // The documents' number.
    pub fn number(self) -> u16
        ensures { result ≡ number_of self }
    {
        self as u16
    }
}

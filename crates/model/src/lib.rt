// What the judge's calls answer, in the papers' numbers and values. The definitions that give these answers their
// meaning, and the theorems about them, are this crate's specs/ and proofs/; it has no code.
#![tactic(auto)]

// The records in front of which a thread may flush the missing store's line: the first and the last of them.
#[derive(Clone, Copy, Debug, PartialEq, Eq)]
pub struct Window {
    pub first: u16,
    pub last: u16,
}

// Which thread is primary, the missing store's; and the window of each thread, or none.
#[derive(Clone, Copy, Debug, PartialEq, Eq)]
pub struct Windows {
    pub primary: u16,
    pub threads: [Option<Window>; 8],
}

// Why a broken trace is broken: the missing store is itself observed; or it happens before the observed one, on another
// cache line or on the same one. Only between stores on two lines is a flush missing, and only then are there windows
// for it.
#[derive(Clone, Copy, Debug, PartialEq, Eq)]
pub enum Kind {
    Contradiction,
    Flush(Windows),
    Impossible,
}

// What judging a trace answers, unless it refuses. The five facts of a broken trace are fields here and no struct in
// the variant: with one a whole judgement of locked operations took 1.044 times the instructions.
#[derive(Clone, Copy, Debug, PartialEq, Eq)]
pub enum Verdict {
    Robust {
        events: u16,
        share: u16,
    },
    Broken {
        events: u16,
        load: u16,
        missing: u16,
        observed: u16,
        kind: Kind,
    },
}

// How the first of two stores stands to the second, by happens-before.
#[derive(Clone, Copy, Debug, PartialEq, Eq)]
pub enum Order {
    Before,
    After,
    Same,
    Neither,
}

// Why a call refuses what it was given: document 01's number, and the event that it is about. A number and no enum,
// since `report::report` prints whichever it is given, and an enum would ask more of its callers.
#[derive(Clone, Copy, Debug, PartialEq, Eq)]
pub struct Refusal {
    pub number: u16,
    pub event: u16,
}

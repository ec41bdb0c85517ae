// Events, and their fields by name: what a record's kind and fields say, and the way back.
ghost use Rattle.std.specs.Prelude.{◌≡◌};
ghost use Rattle.record.specs.Events.{kind_of};
ghost use Rattle.record.specs.Fields.{fields_of, event_of};
ghost use Rattle.record.specs.Answers.{named};

use crate::kinds::{LENGTH, row_of};

// An event of a trace: a variant for each kind of record, with the record's fields.
#[derive(Clone, Copy, Debug, PartialEq, Eq)]
pub enum Event {
    Begin {
        version: u16,
        threads: u16,
        locations: u16,
    },
    Issue {
        thread: u16,
        location: u16,
    },
    Commit {
        thread: u16,
    },
    Load {
        thread: u16,
        location: u16,
        source: u16,
    },
    Clflush {
        thread: u16,
        location: u16,
    },
    // clflushopt or clwb
    Clwb {
        thread: u16,
        location: u16,
    },
    Sfence {
        thread: u16,
    },
    Mfence {
        thread: u16,
    },
    Crash,
    SkipOn {
        thread: u16,
    },
    SkipOff {
        thread: u16,
    },
    // a locked operation: a load, an issue and a commit with nothing between
    Locked {
        thread: u16,
        location: u16,
        source: u16,
    },
    // work is handed over, and taken over from the signal that the source names
    Signal {
        thread: u16,
    },
    Wait {
        thread: u16,
        source: u16,
    },
    // between the two the thread's crossing loads are held: outcome 1 counts them, 0 drops them
    Open {
        thread: u16,
    },
    Close {
        thread: u16,
        outcome: u16,
    },
}

// The values of an event's fields; 0 where its kind has no such field.
#[derive(Clone, Copy, Debug, Default, PartialEq, Eq)]
pub struct Fields {
    pub thread: u16,
    pub location: u16,
    pub source: u16,
    pub version: u16,
    pub threads: u16,
    pub locations: u16,
    pub outcome: u16,
}

// The number of an event's kind.
pub fn kind_of(e: Event) -> u16
    ensures { result ≡ kind_of e }
{
    match e {
        Event::Begin { .. } => 1,
        Event::Issue { .. } => 2,
        Event::Commit { .. } => 3,
        Event::Load { .. } => 4,
        Event::Clflush { .. } => 5,
        Event::Clwb { .. } => 6,
        Event::Sfence { .. } => 7,
        Event::Mfence { .. } => 8,
        Event::Crash => 9,
        Event::SkipOn { .. } => 10,
        Event::SkipOff { .. } => 11,
        Event::Locked { .. } => 12,
        Event::Signal { .. } => 13,
        Event::Wait { .. } => 14,
        Event::Open { .. } => 15,
        Event::Close { .. } => 16,
    }
}

// An event's fields by name; 0 where its kind has no such field.
pub fn fields_of(e: Event) -> Fields
    ensures { result ≡ fields_of e }
{
    let none = Fields::default();
    match e {
        Event::Begin {
            version,
            threads,
            locations,
        } => Fields {
            version,
            threads,
            locations,
            ..none
        },
        Event::Issue { thread, location }
        | Event::Clflush { thread, location }
        | Event::Clwb { thread, location } => Fields {
            thread,
            location,
            ..none
        },
        Event::Load {
            thread,
            location,
            source,
        }
        | Event::Locked {
            thread,
            location,
            source,
        } => {
            Fields {
                thread,
                location,
                source,
                ..none
            }
        }
        Event::Commit { thread }
        | Event::Sfence { thread }
        | Event::Mfence { thread }
        | Event::SkipOn { thread }
        | Event::SkipOff { thread }
        | Event::Signal { thread }
        | Event::Open { thread } => Fields { thread, ..none },
        Event::Crash => none,
        Event::Wait { thread, source } => Fields {
            thread,
            source,
            ..none
        },
        Event::Close { thread, outcome } => Fields {
            thread,
            outcome,
            ..none
        },
    }
}

// The event of a kind with these fields; a crash where there is no such kind.
#[tactic(auto, using(crate::proofs::Shapes::crash_else), unfolding(crate::specs::Fields::event_of))]
pub(crate) fn of_kind(kind: u16, f: Fields) -> Event
    ensures { result ≡ event_of kind f }
{
    let thread = f.thread;
    let location = f.location;
    let source = f.source;
    match kind {
        1 => Event::Begin {
            version: f.version,
            threads: f.threads,
            locations: f.locations,
        },
        2 => Event::Issue { thread, location },
        3 => Event::Commit { thread },
        4 => Event::Load {
            thread,
            location,
            source,
        },
        5 => Event::Clflush { thread, location },
        6 => Event::Clwb { thread, location },
        7 => Event::Sfence { thread },
        8 => Event::Mfence { thread },
        10 => Event::SkipOn { thread },
        11 => Event::SkipOff { thread },
        12 => Event::Locked {
            thread,
            location,
            source,
        },
        13 => Event::Signal { thread },
        14 => Event::Wait { thread, source },
        15 => Event::Open { thread },
        16 => Event::Close {
            thread,
            outcome: f.outcome,
        },
        _ => Event::Crash,
    }
}

// The event of a kind with these fields, if the table has such a kind.
pub fn event_of(kind: u16, f: Fields) -> Option<Event>
    ensures { result ≡ named kind f }
{
    if row_of(kind)[LENGTH] == 0 {
        return None;
    }
    Some(of_kind(kind, f))
}

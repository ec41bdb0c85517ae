// Prints what a call of the record crate, or a round trip over its calls, answers, a line a call.
use crate::round_trips::{read_back, write_again};
use record::{Event, Fields, Read, Refusal, Scan};
use std::{fmt, io};

// Bytes in hexadecimal, each behind a space.
#[derive(Clone, Copy)]
struct Hex<'a>(&'a [u8]);

impl<'a> fmt::Display for Hex<'a> {
    fn fmt<W: fmt::Write>(&self, f: &mut fmt::Formatter<W>) -> fmt::Result {
        for x in self.0 {
            write!(f, " {x:02x}")?;
        }
        Ok(())
    }
}

// A value of the record crate, as its line has it.
#[derive(Clone, Copy)]
struct Shown<T>(T);

impl fmt::Display for Shown<Event> {
    fn fmt<W: fmt::Write>(&self, f: &mut fmt::Formatter<W>) -> fmt::Result {
        match self.0 {
            Event::Begin {
                version,
                threads,
                locations,
            } => write!(f, "begin {version} {threads} {locations}"),
            Event::Issue { thread, location } => write!(f, "issue {thread} {location}"),
            Event::Commit { thread } => write!(f, "commit {thread}"),
            Event::Load {
                thread,
                location,
                source,
            } => write!(f, "load {thread} {location} {source}"),
            Event::Clflush { thread, location } => write!(f, "clflush {thread} {location}"),
            Event::Clwb { thread, location } => write!(f, "clwb {thread} {location}"),
            Event::Sfence { thread } => write!(f, "sfence {thread}"),
            Event::Mfence { thread } => write!(f, "mfence {thread}"),
            Event::Crash => write!(f, "crash"),
            Event::SkipOn { thread } => write!(f, "skip-on {thread}"),
            Event::SkipOff { thread } => write!(f, "skip-off {thread}"),
            Event::Locked {
                thread,
                location,
                source,
            } => write!(f, "locked {thread} {location} {source}"),
            Event::Signal { thread } => write!(f, "signal {thread}"),
            Event::Wait { thread, source } => write!(f, "wait {thread} {source}"),
            Event::Open { thread } => write!(f, "open {thread}"),
            Event::Close { thread, outcome } => write!(f, "close {thread} {outcome}"),
        }
    }
}

impl fmt::Display for Shown<Read> {
    fn fmt<W: fmt::Write>(&self, f: &mut fmt::Formatter<W>) -> fmt::Result {
        let event = Shown(self.0.event);
        let next = self.0.next;
        write!(f, "{event}, next {next}")
    }
}

impl fmt::Display for Shown<Fields> {
    fn fmt<W: fmt::Write>(&self, f: &mut fmt::Formatter<W>) -> fmt::Result {
        let x = self.0;
        write!(
            f,
            "{} {} {} {} {} {} {}",
            x.thread, x.location, x.source, x.version, x.threads, x.locations, x.outcome
        )
    }
}

impl fmt::Display for Shown<Scan> {
    fn fmt<W: fmt::Write>(&self, f: &mut fmt::Formatter<W>) -> fmt::Result {
        let fields = Shown(self.0.fields);
        write!(
            f,
            "kind {}, fields {fields}, next {}",
            self.0.kind, self.0.next
        )
    }
}

impl fmt::Display for Shown<usize> {
    fn fmt<W: fmt::Write>(&self, f: &mut fmt::Formatter<W>) -> fmt::Result {
        write!(f, "{}", self.0)
    }
}

// What a call answered, or the refusal's number.
#[derive(Clone, Copy)]
struct Answer<T>(Result<T, Refusal>);

impl<T: Copy> fmt::Display for Answer<T>
where
    Shown<T>: fmt::Display,
{
    fn fmt<W: fmt::Write>(&self, f: &mut fmt::Formatter<W>) -> fmt::Result {
        match self.0 {
            Ok(answer) => write!(f, "{}", Shown(answer)),
            Err(refusal) => write!(f, "refused {}", refusal.number()),
        }
    }
}

// The bytes, and the first record's event and size or the refusal.
pub fn read(rt: &impl Print, s: &[u8]) -> io::Result<()> {
    println!(rt; "read{}: {}", Hex(s), Answer(record::read_first(s)))
}

// The record at a position.
pub fn read_from(rt: &impl Print, s: &[u8], at: usize) -> io::Result<()> {
    println!(rt; "read at {at}: {}", Answer(record::read_at(s, at)))
}

// The bytes, and the first record's numbers or the refusal.
pub fn scan(rt: &impl Print, s: &[u8]) -> io::Result<()> {
    println!(rt; "scan{}: {}", Hex(s), Answer(record::scan_at(s, 0)))
}

// The numbers of the record at a position: its kind, its fields (thread, location, source, version, threads, locations
// and outcome) and the position past it.
pub fn scan_from(rt: &impl Print, s: &[u8], at: usize) -> io::Result<()> {
    println!(rt; "scan at {at}: {}", Answer(record::scan_at(s, at)))
}

// What refuses the record at a position of a trace of that version, where number k refuses it read alone.
pub fn later(rt: &impl Print, s: &[u8], version: u16, at: usize, k: u16) -> io::Result<()> {
    let number = record::later_refusal(version, s, at, k);
    println!(rt; "in version {version} at {at}, alone {k}: {number}")
}

// The event of a kind with these fields.
pub fn name(rt: &impl Print, kind: u16, f: Fields) -> io::Result<()> {
    match record::event_of(kind, f) {
        Some(e) => println!(rt; "event of kind {kind}: {}", Shown(e)),
        None => println!(rt; "event of kind {kind}: no kind"),
    }
}

// An event written into the output: the answer, and what the output holds afterwards.
fn write_into(rt: &impl Print, e: Event, out: &mut [u8]) -> io::Result<()> {
    let written = Answer(record::write(e, out));
    println!(rt;
        "write {} into {}: {written}, output{}",
        Shown(e),
        out.len(),
        Hex(out)
    )
}

// An event written into an output of so many bytes, at most twelve.
pub fn write_short(rt: &impl Print, e: Event, room: usize) -> io::Result<()> {
    let mut out = [238u8; 12];
    match out.get_mut(..room) {
        Some(short) => write_into(rt, e, short),
        None => Ok(()),
    }
}

// An event written into the output and read back, and what the output holds afterwards.
pub fn back(rt: &impl Print, e: Event, out: &mut [u8]) -> io::Result<()> {
    let answer = Answer(read_back(e, out));
    println!(rt;
        "back {} into {}: {answer}, output{}",
        Shown(e),
        out.len(),
        Hex(out)
    )
}

// The first record of some bytes read and written again into the output, and what the output holds afterwards.
pub fn again(rt: &impl Print, s: &[u8], out: &mut [u8]) -> io::Result<()> {
    let answer = Answer(write_again(s, out));
    println!(rt;
        "again{} into {}: {answer}, output{}",
        Hex(s),
        out.len(),
        Hex(out)
    )
}

// An event written into twelve bytes and framed; then written and read back, and its record written again.
pub fn write(rt: &impl Print, e: Event) -> io::Result<()> {
    let mut out = [238u8; 12];
    write_into(rt, e, &mut out)?;
    part(rt, &out, 0)?;
    let mut trip = [238u8; 12];
    print!(rt; "  ")?;
    back(rt, e, &mut trip)?;
    let mut copy = [238u8; 12];
    print!(rt; "  ")?;
    again(rt, &trip, &mut copy)
}

fn part(rt: &impl Print, s: &[u8], e: usize) -> io::Result<()> {
    println!(rt; "  part {e}:{}", Hex(record::part(s, e)))
}

// Parts 0 to 3 of a trace, and one far past its end.
pub fn parts_of(rt: &impl Print, s: &[u8]) -> io::Result<()> {
    println!(rt; "trace{}", Hex(s))?;
    for e in [0, 1, 2, 3, usize::MAX] {
        part(rt, s, e)?;
    }
    Ok(())
}

// Calls the record crate on document 01's record-level examples and on the edges of each rule, and prints what each
// call answers. The file `stdout` beside src/ was worked out from document 01 by hand.
#![tactic(auto)]

mod round_trips;
mod show;

use record::{Event, Fields};
use show::{
    again, back, later, name, parts_of, read, read_from, scan, scan_from, write, write_short,
};
use std::io::Result;

// Refusals 1 to 4 and the begin record B, each alone and with other bytes behind it.
fn examples(rt: &impl Print) -> Result<()> {
    println!(rt; "-- examples")?;
    let records: [&[u8]; 6] = [
        b"",
        b"\x08\x00\x01",
        b"\x02\x00\x63\x00",
        b"\x04\x00\x09\x00\x00\x00",
        b"\x08\x00\x01\x00\x01\x00\x01\x00\x02\x00",
        b"\x08\x00\x01\x00\x01\x00\x01\x00\x02\x00\x07",
    ];
    for s in records {
        read(rt, s)?;
    }
    Ok(())
}

// Lengths 0, 1 and 2, a single byte left over, and every way to be cut short.
fn lengths(rt: &impl Print) -> Result<()> {
    println!(rt; "-- lengths")?;
    let records: [&[u8]; 13] = [
        b"\x00",
        b"\x01",
        b"\x08",
        b"\x00\x00",
        b"\x01\x00",
        b"\x00\x00\x09\x00",
        b"\x01\x00\x09",
        b"\x02\x00",
        b"\x02\x00\x09",
        b"\x02\x00\x09\x00",
        b"\x04\x00\x03\x00\x05",
        b"\x04\x00\x03\x00\x05\x00",
        b"\xff\xff\x09\x00",
    ];
    for s in records {
        read(rt, s)?;
    }
    Ok(())
}

// A record of length 65,535 with all its bytes: an unknown kind, then a kind of another length.
fn longest(rt: &impl Print) -> Result<()> {
    println!(rt; "-- longest")?;
    let mut bytes = [1u8; 65537];
    bytes[0] = 255;
    bytes[1] = 255;
    read_from(rt, &bytes, 0)?;
    bytes[2] = 9;
    bytes[3] = 0;
    read_from(rt, &bytes, 0)?;
    Ok(())
}

// Kinds that are not in the table, and known kinds of a wrong length; the order of the tests between them.
fn kinds(rt: &impl Print) -> Result<()> {
    println!(rt; "-- kinds")?;
    let records: [&[u8]; 12] = [
        b"\x02\x00\x00\x00",
        b"\x02\x00\x0c\x00",
        b"\x02\x00\x0d\x00",
        b"\x04\x00\x0e\x00\x00\x00",
        b"\x02\x00\x0f\x00",
        b"\x04\x00\x10\x00\x00\x00",
        b"\x02\x00\x11\x00",
        b"\x02\x00\x09\x01",
        b"\x04\x00\x63\x00\x00",
        b"\x09\x00\x01\x00\x01\x00\x01\x00\x02\x00\x00",
        b"\x06\x00\x04\x00\x00\x00\x00\x00",
        b"\x02\x00\x02\x00",
    ];
    for s in records {
        read(rt, s)?;
    }
    Ok(())
}

// Every kind, written and framed, and both round trips, with field values from 0 to 65,535.
fn every_kind(rt: &impl Print) -> Result<()> {
    println!(rt; "-- every kind")?;
    kinds_to_fences(rt)?;
    kinds_from_crash(rt)?;
    Ok(())
}

fn kinds_to_fences(rt: &impl Print) -> Result<()> {
    write(
        rt,
        Event::Begin {
            version: 1,
            threads: 1,
            locations: 2,
        },
    )?;
    write(
        rt,
        Event::Issue {
            thread: 0,
            location: 65535,
        },
    )?;
    write(rt, Event::Commit { thread: 258 })?;
    write(
        rt,
        Event::Load {
            thread: 1,
            location: 2,
            source: 259,
        },
    )?;
    write(
        rt,
        Event::Clflush {
            thread: 7,
            location: 255,
        },
    )?;
    write(
        rt,
        Event::Clwb {
            thread: 7,
            location: 256,
        },
    )?;
    write(rt, Event::Sfence { thread: 65535 })?;
    write(rt, Event::Mfence { thread: 0 })?;
    Ok(())
}

fn kinds_from_crash(rt: &impl Print) -> Result<()> {
    write(rt, Event::Crash)?;
    write(rt, Event::SkipOn { thread: 4660 })?;
    write(rt, Event::SkipOff { thread: 1 })?;
    write(
        rt,
        Event::Locked {
            thread: 3,
            location: 4,
            source: 260,
        },
    )?;
    write(rt, Event::Signal { thread: 5 })?;
    write(
        rt,
        Event::Wait {
            thread: 6,
            source: 261,
        },
    )?;
    write(rt, Event::Open { thread: 7 })?;
    write(
        rt,
        Event::Close {
            thread: 8,
            outcome: 65534,
        },
    )?;
    Ok(())
}

// Outputs that are too short, and one that just fits.
fn short_outputs(rt: &impl Print) -> Result<()> {
    println!(rt; "-- short outputs")?;
    write_short(rt, Event::Crash, 3)?;
    write_short(rt, Event::Crash, 0)?;
    write_short(rt, Event::Crash, 4)?;
    write_short(
        rt,
        Event::Begin {
            version: 1,
            threads: 1,
            locations: 2,
        },
        9,
    )?;
    write_short(
        rt,
        Event::Begin {
            version: 1,
            threads: 1,
            locations: 2,
        },
        10,
    )?;
    Ok(())
}

// Round trips with too short an output, and with one that just fits; refusals 1 to 4; other bytes behind a record.
fn refused_trips(rt: &impl Print) -> Result<()> {
    println!(rt; "-- refused trips")?;
    let mut three = [238u8; 3];
    let mut four = [238u8; 4];
    let mut twelve = [238u8; 12];
    back(rt, Event::Crash, &mut three)?;
    back(rt, Event::Crash, &mut four)?;
    again(rt, b"\x02\x00\x09\x00", &mut three)?;
    again(rt, b"\x02\x00\x09\x00", &mut four)?;
    again(rt, b"", &mut twelve)?;
    again(rt, b"\x08\x00\x01", &mut twelve)?;
    again(rt, b"\x02\x00\x63\x00", &mut twelve)?;
    again(rt, b"\x04\x00\x09\x00\x00\x00", &mut twelve)?;
    again(rt, b"\x04\x00\x03\x00\x05\x00\x07\x07", &mut twelve)?;
    Ok(())
}

// Record by record through B, an issue and a crash; then at the end, past it, and inside a record.
fn positions(rt: &impl Print) -> Result<()> {
    println!(rt; "-- positions")?;
    let trace =
        b"\x08\x00\x01\x00\x01\x00\x01\x00\x02\x00\x06\x00\x02\x00\x00\x00\x01\x00\x02\x00\x09\x00";
    for at in [0, 10, 18, 22, 23, usize::MAX, 2, 21] {
        read_from(rt, trace, at)?;
    }
    Ok(())
}

// Records as plain numbers: through B, a load and a crash, then at the end and inside records; a locked operation; a
// wait; an open and a close, with their lengths and with others; then refusals 2, 3 and 4 with ten bytes and with
// fewer.
fn scans(rt: &impl Print) -> Result<()> {
    println!(rt; "-- scans")?;
    let trace =
        b"\x08\x00\x01\x00\x01\x00\x01\x00\x02\x00\x08\x00\x04\x00\x01\x00\x02\x00\x03\x01\x02\x00\x09\x00";
    for at in [0, 10, 20, 24, usize::MAX, 2, 22] {
        scan_from(rt, trace, at)?;
    }
    let records: [&[u8]; 13] = [
        b"\x08\x00\x0c\x00\x03\x00\x04\x00\x04\x01",
        b"\x06\x00\x0e\x00\x06\x00\x05\x01",
        b"\x04\x00\x0f\x00\x07\x00",
        b"\x06\x00\x10\x00\x08\x00\xfe\xff",
        b"\x06\x00\x0f\x00\x07\x00\x00\x00",
        b"\x04\x00\x10\x00\x08\x00\x02\x00\x09\x00",
        b"",
        b"\x09\x00\x01\x00\x01\x00\x01\x00\x02\x00",
        b"\x08\x00\x01",
        b"\x02\x00\x11\x00\x02\x00\x09\x00\x02\x00\x09\x00",
        b"\x02\x00\x63\x00",
        b"\x04\x00\x09\x00\x00\x00\x02\x00\x09\x00",
        b"\x04\x00\x09\x00\x00\x00",
    ];
    for s in records {
        scan(rt, s)?;
    }
    Ok(())
}

// Kinds of the table by number, and numbers that are none.
fn names(rt: &impl Print) -> Result<()> {
    println!(rt; "-- names")?;
    let f = Fields {
        thread: 4,
        location: 5,
        source: 6,
        version: 1,
        threads: 2,
        locations: 3,
        outcome: 7,
    };
    for kind in [0, 1, 4, 9, 11, 12, 13, 14, 15, 16, 17, 65535] {
        name(rt, kind, f)?;
    }
    Ok(())
}

// Parts of a whole trace, of one with an unknown kind, of one with a length under 2, and of one that is cut short.
fn parts(rt: &impl Print) -> Result<()> {
    println!(rt; "-- parts")?;
    parts_of(rt, b"")?;
    parts_of(
        rt,
        b"\x08\x00\x01\x00\x01\x00\x01\x00\x02\x00\x06\x00\x02\x00\x00\x00\x01\x00\x02\x00\x09\x00",
    )?;
    parts_of(rt, b"\x02\x00\x63\x00\x03\x00\x09\x00\x07")?;
    parts_of(rt, b"\x02\x00\x09\x00\x01\x00\x02\x00\x09\x00")?;
    parts_of(rt, b"\x02\x00\x09\x00\x02\x00\x09")?;
    Ok(())
}

// What refuses the record at a position behind the first, by the trace's version, where a number refuses it read alone:
// an open of a wrong length behind B, a crash of one, a close whose bytes are missing, and the end.
fn versions(rt: &impl Print) -> Result<()> {
    println!(rt; "-- versions")?;
    let trace =
        b"\x08\x00\x01\x00\x01\x00\x01\x00\x02\x00\x02\x00\x0f\x00\x03\x00\x09\x00\x00\x06\x00\x10\x00";
    later(rt, trace, 1, 10, 4)?;
    later(rt, trace, 2, 10, 4)?;
    later(rt, trace, 1, 10, 3)?;
    later(rt, trace, 1, 14, 4)?;
    later(rt, trace, 1, 19, 2)?;
    later(rt, trace, 1, 23, 1)?;
    later(rt, trace, 1, usize::MAX, 4)?;
    Ok(())
}

fn main(rt: HostRuntime) -> Result<()> {
    examples(&rt)?;
    lengths(&rt)?;
    longest(&rt)?;
    kinds(&rt)?;
    every_kind(&rt)?;
    short_outputs(&rt)?;
    refused_trips(&rt)?;
    positions(&rt)?;
    scans(&rt)?;
    names(&rt)?;
    versions(&rt)?;
    parts(&rt)?;
    Ok(())
}

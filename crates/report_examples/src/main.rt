// Prints the reports of cases 1, 2, 7, 8 and 9 of document 01, of case 1 with its locations on two cache lines, of the
// longest text and of numbers past the bounds, and then the threads and finished stretches of a few byte strings.
// `stdout` is worked by hand from documents 01 and 02.
#![tactic(auto)]

use model::{Kind, Refusal, Verdict, Window, Windows};
use std::io;

// Prints the report of a verdict, or of a refusal.
fn print(
    rt: &impl Print,
    v: Result<Verdict, Refusal>,
    threads: u16,
    finished: u16,
    cut: &[u16],
) -> io::Result<()> {
    let mut out = [0u8; 1024];
    let n = report::report(v, threads, finished, cut, &mut out);
    rt.write_all(&out[..n])
}

// Prints the report of a robust trace.
fn print_robust(
    rt: &impl Print,
    events: u16,
    share: u16,
    threads: u16,
    finished: u16,
    cut: &[u16],
) -> io::Result<()> {
    print(
        rt,
        Ok(Verdict::Robust { events, share }),
        threads,
        finished,
        cut,
    )
}

// Prints the report of a broken trace.
fn print_broken(
    rt: &impl Print,
    events: u16,
    load: u16,
    missing: u16,
    observed: u16,
    kind: Kind,
) -> io::Result<()> {
    let v = Verdict::Broken {
        events,
        load,
        missing,
        observed,
        kind,
    };
    print(rt, Ok(v), 1, 1, &[0])
}

// The windows of case 1 on two lines: thread 0 may flush in front of records 6 and 7, the others in front of none.
fn windows() -> Windows {
    let mut threads = [None; 8];
    threads[0] = Some(Window { first: 6, last: 7 });
    Windows {
        primary: 0,
        threads,
    }
}

// Prints the report of a refusal.
fn print_refused(rt: &impl Print, number: u16, event: u16) -> io::Result<()> {
    print(rt, Err(Refusal { number, event }), 1, 1, &[0])
}

// Prints a trace's threads and finished stretches.
fn print_shape(rt: &impl Print, trace: &[u8]) -> io::Result<()> {
    let s = report::shape_of(trace);
    let (threads, finished) = (s.threads, s.finished);
    println!(rt; "{threads} {finished}")
}

fn main(rt: HostRuntime) -> io::Result<()> {
    // case 1, on one line and on two; cases 2, 7, 8 and 9
    print_broken(&rt, 11, 11, 5, 7, Kind::Impossible)?;
    print_broken(&rt, 11, 11, 5, 7, Kind::Flush(windows()))?;
    print_robust(&rt, 7, 50, 2, 1, &[0, 1])?;
    print_broken(&rt, 5, 5, 1, 1, Kind::Contradiction)?;
    print_refused(&rt, 9, 3)?;
    print_robust(&rt, 0, 100, 1, 0, &[0])?;
    // two stretches of two threads, and the longest text
    print_robust(&rt, 90, 9, 2, 2, &[1, 20, 0, 0, 0, 0, 0, 0, 300, 4000])?;
    print_robust(&rt, 65535, 65535, 8, 7, &[65535; 56])?;
    // more threads and stretches than a trace can have, and a cut that ends early
    print_robust(&rt, 10, 0, 9, 8, &[1, 20, 300, 4000, 50000])?;
    // no bytes; a begin with 2 threads; the same with a crash, then with bytes that end inside a record; with kind 99
    // before a crash; a crash alone; eight crashes
    let traces: [&[u8]; 7] = [
        b"",
        b"\x08\0\x01\0\x01\0\x02\0\x02\0",
        b"\x08\0\x01\0\x01\0\x02\0\x02\0\x02\0\x09\0",
        b"\x08\0\x01\0\x01\0\x02\0\x02\0\x02\0\x09\0\x08\0\x01",
        b"\x08\0\x01\0\x01\0\x02\0\x02\0\x02\0\x63\0\x02\0\x09\0",
        b"\x02\0\x09\0",
        b"\x02\0\x09\0\x02\0\x09\0\x02\0\x09\0\x02\0\x09\0\x02\0\x09\0\x02\0\x09\0\x02\0\x09\0\x02\0\x09\0",
    ];
    for trace in traces {
        print_shape(&rt, trace)?;
    }
    Ok(())
}

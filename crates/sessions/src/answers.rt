// The answer to each line.
use crate::{lines, window_lines};
use model::{Order, Refusal, Verdict};
use std::io;

fn print_verdict(
    rt: &impl Print,
    v: Result<Verdict, Refusal>,
    threads: u16,
    finished: u16,
    cut: &[u16],
) -> io::Result<()> {
    let mut out = [0u8; 1024];
    let n = report::report(v, threads, finished, cut, &mut out);
    rt.write_all(&out[..n])
}

// ---- judging

fn judge(rt: &impl Print, trace: &[u8]) -> io::Result<()> {
    let mut out = [0u8; 1024];
    let n = verdict_text::text_of(trace, &mut out);
    rt.write_all(&out[..n])
}

// Judges a trace, and prints behind the lines of its verdict those of its windows.
fn judge_windows(rt: &impl Print, trace: &[u8]) -> io::Result<()> {
    let mut work = [0u16; 32768];
    let mut cut = [0u16; 56];
    let v = judge::judge(trace, &mut work, &mut cut);
    let s = report::shape_of(trace);
    print_verdict(rt, v, s.threads, s.finished, &cut)?;
    window_lines::print_windows_of(rt, v)
}

// Prints how many of the numbers are 0.
fn print_zeros(rt: &impl Print, name: &str, numbers: &[u16]) -> io::Result<()> {
    let n = numbers.iter().filter(|x| **x == 0).count();
    println!(rt; "zeros of the {name} {n}")
}

// Judges with buffers that hold no 0; then says how many numbers of each are 0.
fn judge_with(rt: &impl Print, trace: &[u8], work_size: usize, cut_size: usize) -> io::Result<()> {
    let mut work = [7u16; 32770];
    let mut cut = [9u16; 57];
    let w = work_size.min(work.len());
    let c = cut_size.min(cut.len());
    let v = judge::judge(trace, &mut work[..w], &mut cut[..c]);
    let s = report::shape_of(trace);
    print_verdict(rt, v, s.threads, s.finished, &cut)?;
    print_zeros(rt, "work area", &work)?;
    print_zeros(rt, "cut buffer", &cut)
}

// ---- the order query

fn order(rt: &impl Print, trace: &[u8], first: u16, second: u16) -> io::Result<()> {
    let mut work = [0u16; 32768];
    match judge::order(trace, &mut work, first, second) {
        Ok(Order::Before) => rt.println("before"),
        Ok(Order::After) => rt.println("after"),
        Ok(Order::Same) => rt.println("same"),
        Ok(Order::Neither) => rt.println("neither"),
        Err(refusal) => print_verdict(rt, Err(refusal), 0, 0, &[0]),
    }
}

// ---- a line

// A session by its letter: j or w, or with two numbers before the trace o or b.
fn answer(rt: &impl Print, letter: u8, bytes: &[u8]) -> io::Result<()> {
    match (letter, bytes) {
        (b'j', trace) => judge(rt, trace),
        (b'w', trace) => judge_windows(rt, trace),
        (b'o', [a, b, c, d, trace @ ..]) => {
            let first = u16::from_be_bytes([*a, *b]);
            let second = u16::from_be_bytes([*c, *d]);
            order(rt, trace, first, second)
        }
        (_, [a, b, c, d, trace @ ..]) => {
            let work_size = u16::from_be_bytes([*a, *b]);
            let cut_size = u16::from_be_bytes([*c, *d]);
            judge_with(rt, trace, usize::from(work_size), usize::from(cut_size))
        }
        _ => Ok(()),
    }
}

// Answers a line. Nothing answers an empty one, nor a session that is too short for its numbers.
fn answer_line(rt: &impl Print, line: &[u8]) -> io::Result<()> {
    match line {
        [] => Ok(()),
        [b'#', ..] => {
            rt.write_all(line)?;
            rt.write_all(b"\n")
        }
        [letter, digits @ ..] => {
            let mut bytes = [0u8; 32768];
            let n = lines::decode(digits, &mut bytes);
            answer(rt, *letter, &bytes[..n])
        }
    }
}

pub(crate) fn answer_all(rt: &impl Print, input: &[u8]) -> io::Result<()> {
    for line in input.split(|b| *b == b'\n') {
        answer_line(rt, line)?;
    }
    Ok(())
}

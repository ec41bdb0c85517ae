// The lines of a flush fault's windows.
use model::{Kind, Refusal, Verdict, Windows};
use std::io;

// The primary thread; then of each thread that has a window the thread, its first and its last place.
fn print_windows(rt: &impl Print, windows: Windows) -> io::Result<()> {
    println!(rt; "primary {}", windows.primary)?;
    for (thread, window) in windows.threads.iter().enumerate() {
        if let Some(w) = window {
            println!(rt; "window {thread} {} {}", w.first, w.last)?;
        }
    }
    Ok(())
}

// What a verdict says of windows: nothing, unless it is a flush fault.
pub(crate) fn print_windows_of(rt: &impl Print, v: Result<Verdict, Refusal>) -> io::Result<()> {
    if let Ok(
        Verdict::Broken {
            kind: Kind::Flush(windows),
            ..
        },
    ) = v
    {
        print_windows(rt, windows)?;
    }
    Ok(())
}

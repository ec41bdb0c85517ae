// The numbers of the judge's answers.
ghost use Rattle.std.specs.Prelude.{◌≡◌};
ghost use Rattle.model.specs.declared.Kind.TheVariants.{Flush};
ghost use Rattle.model.specs.Answers.{broken, window_answer, kind_answer, verdict_answer, order_answer};
ghost use Rattle.cabi.specs.Answers.{window_numbers, bare_numbers, broken_numbers, verdict_numbers, standing_numbers};

use model::{Kind, Order, Refusal, Verdict, Window, Windows};

// A window's first and last place; 0 and 0 for none.
fn window_numbers(window: Option<Window>) -> [u16; 2]
    ensures { result ≡ window_numbers (window_answer window) }
{
    match window {
        Some(w) => [w.first, w.last],
        None => [0, 0],
    }
}

// A broken answer of a kind, by its number, with no windows.
fn bare_numbers(events: u16, load: u16, missing: u16, observed: u16, kind: u16) -> [u16; 26]
    ensures { result ≡ broken_numbers events load missing observed (bare_numbers kind) }
{
    let mut bare = [0; 26];
    bare[2] = 2;
    bare[3] = events;
    bare[5] = load;
    bare[6] = missing;
    bare[7] = observed;
    bare[8] = kind;
    bare
}

fn flush_numbers(events: u16, load: u16, missing: u16, observed: u16, w: Windows) -> [u16; 26]
    ensures { result ≡ verdict_numbers (broken events load missing observed (kind_answer (Flush w))) }
{
    let primary = w.primary.wrapping_add(1);
    let [a, b, c, d, e, f, g, h] = w.threads.map(window_numbers);
    [
        0, 0, 2, events, 0, load, missing, observed, 2, primary, a[0], a[1], b[0], b[1], c[0],
        c[1], d[0], d[1], e[0], e[1], f[0], f[1], g[0], g[1], h[0], h[1],
    ]
}

fn broken_numbers(events: u16, load: u16, missing: u16, observed: u16, kind: Kind) -> [u16; 26]
    ensures { result ≡ verdict_numbers (broken events load missing observed (kind_answer kind)) }
{
    match kind {
        Kind::Contradiction => bare_numbers(events, load, missing, observed, 1),
        Kind::Flush(w) => flush_numbers(events, load, missing, observed, w),
        Kind::Impossible => bare_numbers(events, load, missing, observed, 3),
    }
}

pub(crate) fn verdict_numbers(v: Result<Verdict, Refusal>) -> [u16; 26]
    ensures { result ≡ verdict_numbers (verdict_answer v) }
{
    let mut numbers = [0; 26];
    match v {
        Ok(Verdict::Robust { events, share }) => {
            numbers[2] = 1;
            numbers[3] = events;
            numbers[4] = share;
            numbers
        }
        Ok(
            Verdict::Broken {
                events,
                load,
                missing,
                observed,
                kind,
            },
        ) => broken_numbers(events, load, missing, observed, kind),
        Err(refusal) => {
            numbers[0] = refusal.number;
            numbers[1] = refusal.event;
            numbers
        }
    }
}

pub(crate) fn standing_numbers(r: Result<Order, Refusal>) -> [u16; 3]
    ensures { result ≡ standing_numbers (order_answer r) }
{
    match r {
        Ok(Order::Before) => [0, 0, 1],
        Ok(Order::After) => [0, 0, 2],
        Ok(Order::Same) => [0, 0, 3],
        Ok(Order::Neither) => [0, 0, 4],
        Err(refusal) => [refusal.number, refusal.event, 0],
    }
}

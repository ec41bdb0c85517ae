// The lent work area: its first 32,768 numbers are rows of 16, one for each event from 1 to 2,048. `row_get` and
// `row_put` find a row by a remainder and a column by another, so every number has a row, callers owe no bound, and
// `row_put` leaves the numbers past the first 32,768 as they are. The other stores go where they are told, in whatever
// they are lent: `no_store` to columns 10 and 11 of the row that begins at `row`, `join` to the eight numbers from `to`
// on, `clear` to all. The judge lends 32,768 numbers.
#![tactic(auto)]

ghost use Rattle.std.specs.Prelude.{◌≡◌, ◌+◌, ◌*◌, ◌≤◌, get_or, set, length, replicate};
ghost use Rattle.area.specs.Cells.{row_start, get_row, put_row, clock_covers_w, covers_w, one_line_w};
ghost use Rattle.area.specs.Cells.{committed_at, event_at, no_store, total, joined};

pub mod numbers;

// The number at position i; 0 past the end.
fn get(work: &[u16], i: usize) -> u16
    ensures { result ≡ get_or work.now i 0 }
{
    work.get(i).copied().unwrap_or(0)
}

// The number at position i becomes v; past the end nothing changes. By `get_mut` the proof does not learn that a missing
// number leaves the slice as it was.
fn put(work: &mut [u16], i: usize, v: u16)
    ensures { work.new ≡ set work.old i v }
{
    if i < work.len() {
        work[i] = v;
    }
}

// All numbers become 0.
pub fn clear(numbers: &mut [u16])
    ensures { numbers.new ≡ replicate (length numbers.old) 0 }
{
    numbers.fill(0);
}

// The sum of 56 numbers, eight for each of seven stretches, from a position on.
pub fn total(numbers: &[u16], from: usize) -> u32
    requires { from + 56 ≤ length numbers.now }
    ensures { (result ≡ total 56 numbers.now from) × (result ≤ 65535 * 56) }
{
    let mut sum = 0;
    for x in &numbers[from..from + 56] {
        sum += u32::from(*x);
    }
    sum
}

// ---- rows

// Where event e's row begins: rows 1 to 2,048 stand one after the other, and 0, which has none, goes round to the last.
// A remainder keeps every row inside the area without a test.
#[tactic(auto, unfolding(crate::specs::Cells::row_start))]
pub fn row_of(e: u16) -> usize
    ensures { (result ≡ row_start e) × (result + 16 ≤ 32768) }
{
    16 * ((usize::from(e) + 2047) % 2048)
}

// Column k of event e's row.
#[tactic(auto, unfolding(crate::specs::Cells::get_row))]
pub fn row_get(work: &[u16], e: u16, k: u16) -> u16
    ensures { result ≡ get_row work.now e k }
{
    get(work, row_of(e) + usize::from(k % 16))
}

// Column k of event e's row becomes v.
#[tactic(auto, unfolding(crate::specs::Cells::put_row))]
pub fn row_put(work: &mut [u16], e: u16, k: u16, v: u16)
    ensures { work.new ≡ put_row work.old e k v }
{
    put(work, row_of(e) + usize::from(k % 16), v);
}

// Event q's clock for store p's thread is not below p's own.
pub fn clock_covers(work: &[u16], p: u16, q: u16) -> bool
    ensures { result ≡ clock_covers_w work.now p q }
{
    let t = row_get(work, p, 8);
    row_get(work, p, t) <= row_get(work, q, t)
}

// Store p is store q or happens before it: they are of the same stretch, and q's clock for p's thread is not below p's
// own.
pub fn covers(work: &[u16], p: u16, q: u16) -> bool
    ensures { result ≡ covers_w work.now p q }
{
    row_get(work, p, 10) == row_get(work, q, 10) && clock_covers(work, p, q)
}

// Stores p and q are on one cache line: eight locations are a line.
pub fn one_line(work: &[u16], p: u16, q: u16) -> bool
    ensures { result ≡ one_line_w work.now p q }
{
    row_get(work, p, 9) / 8 == row_get(work, q, 9) / 8
}

// Where the row of the event that committed store p begins.
pub fn committed_at(work: &[u16], p: u16) -> u16
    ensures { result ≡ committed_at work.now p }
{
    row_get(work, p, 13).max(row_of(p) as u16)
}

// The number of the event whose row begins there; 2,049 behind the last row.
pub fn event_at(row: usize) -> u16
    requires { row ≤ 32768 }
    ensures { result ≡ event_at row }
{
    (row / 16 + 1) as u16
}

// The event whose row begins there is no store, and no signal.
pub fn no_store(work: &mut [u16], row: usize)
    requires { row + 16 ≤ length work.old }
    ensures { work.new ≡ no_store work.old row }
{
    work[row + 10] = 0;
    work[row + 11] = 0;
}

// The eight numbers from `to` on become the larger of them and of event s's clock.
#[tactic(auto, unfolding(crate::specs::Cells::joined))]
pub fn join(numbers: &mut [u16], to: usize, work: &[u16], s: u16)
    requires { (to + 8 ≤ length numbers.old) × (32768 ≤ length work.now) }
    ensures { numbers.new ≡ joined 8 work.now s to numbers.old }
{
    let from = row_of(s);
    for u in 0..8 {
        numbers[to + u] = numbers[to + u].max(work[from + u]);
    }
}

// Where the flush may go: the windows of a flush fault, from one more pass over the records between the missing store
// and the observed one. The order of stores comes from the rows of the work area.
#![tactic(auto)]

ghost use Rattle.std.specs.Prelude.{◌≡◌};
ghost use Rattle.windows.specs.Finding.{windows_by};

mod found;
mod records;

use found::Found;
use model::Windows;

// The windows for the missing store p and the observed store q of a trace that was accepted.
pub fn windows(trace: &[u8], work: &[u16], p: u16, q: u16) -> Windows
    ensures { result ≡ windows_by trace.now work.now p q }
{
    let primary = area::row_get(work, p, 8);
    let mut found = Found::behind_missing(primary, p);
    records::look(trace, work, p, q, &mut found);
    Windows {
        primary,
        threads: found.windows(),
    }
}

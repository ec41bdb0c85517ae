// The records behind the missing store, up to the observed one.
ghost use Rattle.std.specs.Prelude.{◌≡◌};
ghost use Rattle.windows.specs.Finding.{noted, looked};

use crate::found::Found;
use record::SourceAt;

// Event e, with what its record says if it has a source. Of an event that stores and loads the store is noted first:
// the first place that its own load gives the thread is behind it, so the store cannot end that window.
fn note(found: &mut Found, work: &[u16], p: u16, q: u16, e: u16, said: SourceAt)
    ensures { found.new.threads ≡ noted work.now p q found.old.threads e said }
{
    found.note_store(work, q, e);
    if let Some(source) = said.source {
        found.note_source(work, p, e, source.thread, source.source);
    }
}

// Records p + 1 to q, one after the other.
pub(crate) fn look(trace: &[u8], work: &[u16], p: u16, q: u16, found: &mut Found)
    ensures { found.new.threads ≡ looked trace.now work.now p q found.old.threads }
{
    let mut at = record::place_of(trace, usize::from(p) + 1).start;
    for e in p..q {
        let said = record::source_at(trace, at);
        note(found, work, p, q, e + 1, said);
        at = said.next;
    }
}

// Which version of the format knows a kind, for records behind the first of a trace.
ghost use Rattle.std.specs.Prelude.{◌≡◌};
ghost use Rattle.record.specs.Versions.{known_in, new_at, later_refusal};

use crate::bytes::word_at;
use crate::kinds::{SINCE, row_of};
use crate::parts::size_at;
use crate::refusal::Refusal;

// A trace of that version knows the kind.
fn known_in(version: u16, kind: u16) -> bool
    ensures { result ≡ known_in version kind }
{
    let since = row_of(kind)[SINCE];
    since <= 1 || since <= version
}

// The record at a position is framed, and a trace of that version does not know its kind.
pub(crate) fn new_at(version: u16, trace: &[u8], at: usize) -> bool
    ensures { result ≡ new_at version trace.now at }
{
    size_at(trace, at) != 0 && !known_in(version, word_at(trace, at + 2))
}

// What refuses the record at a position behind the first of a trace of that version, where number k refuses it read
// alone: 3 in the place of a wrong length, if the version does not know the kind. A number that no refusal has stays.
#[tactic(auto, using(crate::proofs::NewKinds::no_number))]
pub fn later_refusal(version: u16, trace: &[u8], at: usize, k: u16) -> u16
    ensures { result ≡ later_refusal version trace.now at k }
{
    match Refusal::try_from(k) {
        Ok(alone) => alone.later(version, trace, at).number(),
        Err(_) => k,
    }
}

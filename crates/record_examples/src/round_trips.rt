// The round trips of the record crate's calls: an event written and read back, a record read and written again.
ghost use Rattle.std.specs.Prelude.{◌≡◌};
ghost use Rattle.record.specs.Answers.{read_answer};
ghost use Rattle.record.specs.Writing.{written};
ghost use Rattle.record_examples.specs.RoundTrips.{read_back, written_again, old_bytes};

use record::{Event, Read, Refusal};

// Writes an event into the output and reads it back from there: the event itself and the number of bytes written; or
// 17, and the output is as lent.
#[tactic(auto, using(crate::proofs::RoundTrips::back))]
pub fn read_back(e: Event, out: &mut [u8]) -> Result<Read, Refusal>
    ensures answer { read_answer result ≡ read_back e out.old }
    ensures bytes { out.new ≡ written e out.old }
{
    record::write(e, out)?;
    record::read_first(out)
}

// Reads the first record of some bytes and writes its event into the output: the event and its size, and the output
// starts with the record's bytes; or the refusal, 1 to 4 or 17, and the output is as lent.
#[tactic(auto, using(crate::proofs::RoundTrips::again))]
pub fn write_again(bytes: &[u8], out: &mut [u8]) -> Result<Read, Refusal>
    ensures answer { read_answer result ≡ written_again bytes.now out.old }
    ensures bytes { out.new ≡ old_bytes bytes.now out.old }
{
    let read = record::read_first(bytes)?;
    record::write(read.event, out)?;
    Ok(read)
}

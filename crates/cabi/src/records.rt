// The numbers of a record.
ghost use Rattle.std.specs.Prelude.{◌≡◌, slice_index};
ghost use Rattle.record.specs.Answers.{read_answer, named, write_answer};
ghost use Rattle.cabi.specs.Records.{event_numbers, read_numbers, size_in, fields_in};
ghost use Rattle.cabi.specs.Records.{writing_numbers, written_numbers};

use record::{Event, Fields, Read, Refusal};

fn event_numbers(e: Event) -> [u16; 9]
    ensures { result ≡ event_numbers e }
{
    let k = record::kind_of(e);
    let f = record::fields_of(e);
    [
        0,
        k,
        f.version,
        f.threads,
        f.locations,
        f.thread,
        f.location,
        f.source,
        f.outcome,
    ]
}

pub(crate) fn read_numbers(read: Result<Read, Refusal>) -> [u16; 9]
    ensures { result ≡ read_numbers (read_answer read) }
{
    match read {
        Ok(read) => event_numbers(read.event),
        Err(refusal) => [refusal.number(), 0, 0, 0, 0, 0, 0, 0, 0],
    }
}

// The position past the record; 0 for a refusal.
pub(crate) fn past(read: Result<Read, Refusal>) -> usize
    ensures { result ≡ size_in (read_answer read) }
{
    read.map_or(0, |read| read.next)
}

// The event that the numbers name, if there is such a kind.
fn event_named(numbers: [u16; 9]) -> Option<Event>
    ensures { result ≡ named (slice_index numbers 1) (fields_in numbers) }
{
    let f = Fields {
        thread: numbers[5],
        location: numbers[6],
        source: numbers[7],
        version: numbers[2],
        threads: numbers[3],
        locations: numbers[4],
        outcome: numbers[8],
    };
    record::event_of(numbers[1], f)
}

// Writes the event that the numbers name; the number of bytes written, or the refusal.
#[tactic(auto, using(crate::proofs::Naming::naming))]
pub(crate) fn write(numbers: [u16; 9], output: &mut [u8]) -> Result<usize, Refusal>
    ensures answer { write_answer result ≡ writing_numbers numbers output.old }
    ensures output_after { output.new ≡ written_numbers numbers output.old }
{
    let event = event_named(numbers).ok_or(Refusal::UnknownKind)?;
    record::write(event, output)
}

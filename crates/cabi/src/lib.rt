// The calls for programs in C and Rust: numbers and lent slices go in, and answers come back as numbers in small lent
// arrays. A slice is a pointer and a length; `include/gorbuzte.h` says the same to a C compiler. No call has a
// `requires`; each says its answer, and every number and byte that it was lent, for all inputs.
#![tactic(auto)]

ghost use Rattle.std.specs.Prelude.{◌≡◌, ℕ, ◌≤◌, true, length, slice_set};
ghost use Rattle.record.specs.Parts.{place_of};
ghost use Rattle.record.specs.Reading.{read_at};
ghost use Rattle.model.specs.Answers.{Answer, Standing};
ghost use Rattle.model.specs.Reading.{refusal_in, events, AcceptedWith};
ghost use Rattle.model.specs.Judge.{judge_of, cut_after, work_after, order_of, order_work_after, store?};
ghost use Rattle.model.specs.Demand.{Claims, Stands};
ghost use Rattle.cabi.specs.Answers.{verdict_numbers, standing_numbers};
ghost use Rattle.cabi.specs.Records.{read_numbers, size_in, writing_numbers, written_numbers};
ghost use Rattle.cabi.specs.Records.{place_numbers};

mod answers;
mod records;

// Judges a trace.
#[unsafe(no_mangle)]
pub extern "C" fn gorbuzte_judge(
    trace: &[u8],
    work: &mut [u16],
    cut: &mut [u16],
    answer: &mut [u16; 26],
)
    ensures answer { answer.new ≡ verdict_numbers
        (judge_of trace.now (length work.old) (length cut.old)) }
    ensures cut { cut.new
        ≡ cut_after trace.now (length work.old) cut.old }
    ensures work { work.new ≡ work_after work.old (length cut.old) }
    ensures demand { (N : ℕ) → AcceptedWith trace.now N → 32768 ≤ length work.old
        → length cut.old ≡ 56
        → (a : Answer) × (answer.new ≡ verdict_numbers a)
        × Claims (events trace.now) N cut.old cut.new a }
{
    let v = judge::judge(trace, work, cut);
    *answer = answers::verdict_numbers(v);
}

// How the store that event `first` issues stands to that of event `second`.
#[unsafe(no_mangle)]
pub extern "C" fn gorbuzte_order(
    trace: &[u8],
    work: &mut [u16],
    first: u16,
    second: u16,
    answer: &mut [u16; 3],
)
    ensures answer { answer.new
        ≡ standing_numbers (order_of trace.now (length work.old) first second) }
    ensures work { work.new ≡ order_work_after work.old }
    ensures demand { (N : ℕ) → AcceptedWith trace.now N → 32768 ≤ length work.old
        → store? (events trace.now) N first ≡ true
        → store? (events trace.now) N second ≡ true
        → (s : Standing) × (answer.new ≡ standing_numbers s)
        × Stands (events trace.now) first second s }
{
    let r = judge::order(trace, work, first, second);
    *answer = answers::standing_numbers(r);
}

// Reads the record at a position; answers the position past it, 0 for a refusal.
#[unsafe(no_mangle)]
pub extern "C" fn gorbuzte_read(trace: &[u8], at: usize, fields: &mut [u16; 9]) -> usize
    ensures position { result ≡ size_in (read_at trace.now at) }
    ensures fields { fields.new ≡ read_numbers (read_at trace.now at) }
{
    let r = record::read_at(trace, at);
    *fields = records::read_numbers(r);
    records::past(r)
}

// Writes a record to the start of the output; answers its size, 0 for a refusal. Of `fields` only the refusal changes.
#[unsafe(no_mangle)]
pub extern "C" fn gorbuzte_write(fields: &mut [u16; 9], output: &mut [u8]) -> usize
    ensures size { result ≡ size_in (writing_numbers fields.old output.old) }
    ensures output { output.new ≡ written_numbers fields.old output.old }
    ensures fields { fields.new ≡ slice_set fields.old 0
        (refusal_in (writing_numbers fields.old output.old)) }
{
    let written = records::write(*fields, output);
    fields[0] = record::refusal_of(written);
    written.unwrap_or(0)
}

// Where record number e stands in the trace.
#[unsafe(no_mangle)]
pub extern "C" fn gorbuzte_frame(trace: &[u8], e: usize, place: &mut [usize; 2])
    ensures { place.new ≡ place_numbers (place_of trace.now e) }
{
    let p = record::place_of(trace, e);
    *place = [p.start, p.size];
}

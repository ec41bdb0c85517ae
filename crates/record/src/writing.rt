// Writing an event as a record, by the table that the reader uses.
ghost use Rattle.std.specs.Prelude.{◌≡◌, ◌+◌, ◌≤◌, length};
ghost use Rattle.record.specs.Answers.{write_answer};
ghost use Rattle.record.specs.Fields.{RowFits, put_field, put_fields};
ghost use Rattle.record.specs.Writing.{writing, written};

use crate::bytes::put_word;
use crate::events::{Event, Fields, fields_of, kind_of};
use crate::kinds::{
    LENGTH, LOCATION, LOCATIONS, OUTCOME, SOURCE, THREAD, THREADS, VERSION, row_of,
};
use crate::refusal::Refusal;

// Stores a field's value, unless its offset is 0.
fn put_field(out: &mut [u8], at: u16, v: u16)
    requires { at + 2 ≤ length out.old }
    ensures { out.new ≡ put_field out.old at v }
{
    if at != 0 {
        put_word(out, usize::from(at), v);
    }
}

// Stores the fields where a row of the table places them.
#[tactic(auto, unfolding(crate::specs::Fields::put_fields))]
fn put_fields(out: &mut [u8], row: [u16; 10], f: Fields)
    requires { RowFits row (length out.old) }
    ensures { out.new ≡ put_fields out.old row f }
{
    put_field(out, row[THREAD], f.thread);
    put_field(out, row[LOCATION], f.location);
    put_field(out, row[SOURCE], f.source);
    put_field(out, row[VERSION], f.version);
    put_field(out, row[THREADS], f.threads);
    put_field(out, row[LOCATIONS], f.locations);
    put_field(out, row[OUTCOME], f.outcome);
}

// Writes an event's record at the front of the output, all field values taken. Fills the record's bytes and no others,
// and answers their number; or answers 17 and leaves the output as lent, where it is shorter than the record.
#[tactic(auto, using(crate::proofs::Shapes::sizes), unfolding(crate::specs::Writing::writing, crate::specs::Writing::written))]
pub fn write(e: Event, out: &mut [u8]) -> Result<usize, Refusal>
    ensures answer { write_answer result ≡ writing e out.old }
    ensures bytes { out.new ≡ written e out.old }
{
    let kind = kind_of(e);
    let row = row_of(kind);
    let len = row[LENGTH];
    let size = usize::from(len) + 2;
    if out.len() < size {
        return Err(Refusal::NoRoom);
    }
    put_word(out, 0, len);
    put_word(out, 2, kind);
    put_fields(out, row, fields_of(e));
    Ok(size)
}

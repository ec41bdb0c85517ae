// What a report has to know of a trace: how many threads it has and how many stretches it finishes.
ghost use Rattle.std.specs.Prelude.{◌≡◌, ◌+◌, ◌≤◌, min, eqb};
ghost use Rattle.model.specs.Search.{bit};
ghost use Rattle.report.specs.Extent.{threads_of, finished_of};

const CRASH: u16 = 9;

#[derive(Clone, Copy, Debug, PartialEq, Eq)]
pub struct Shape {
    pub threads: u16,
    pub finished: u16,
}

// The threads of the first record; 0 if it is no begin or cannot be read.
#[tactic(auto, using(crate::proofs::Extents::threads_read, crate::proofs::Extents::threads_unread))]
fn threads_in(trace: &[u8]) -> u16
    ensures { result ≡ threads_of trace.now }
{
    let Ok(read) = record::read_at(trace, 0) else {
        return 0;
    };
    record::fields_of(read.event).threads
}

// One more where the kind is a crash's, up to 7.
fn crashed(finished: u16, kind: u16) -> u16
    requires { finished ≤ 7 }
    ensures { result ≡ min (finished + bit (eqb kind 9)) 7 }
{
    (finished + u16::from(kind == CRASH)).min(7)
}

// The crashes before the first record that cannot be read, up to 7. The walk counts no index: each record says where
// the next one starts. An iterator over it would be used here alone, and be longer.
fn finished_in(trace: &[u8]) -> u16
    ensures { result ≡ finished_of trace.now }
{
    let mut at = 0;
    let mut finished = 0;
    while let Ok(read) = record::read_at(trace, at) {
        finished = crashed(finished, record::kind_of(read.event));
        at = read.next;
    }
    finished
}

// The threads and the finished stretches of a trace, read up to the first record that cannot be read. Of an accepted
// trace these are the threads of its begin and its crashes, of empty bytes 0 and 0; of others what specs/Extent.antt
// says.
pub fn shape_of(trace: &[u8]) -> Shape
    ensures { (result.threads ≡ threads_of trace.now) × (result.finished ≡ finished_of trace.now) }
{
    Shape {
        threads: threads_in(trace),
        finished: finished_in(trace),
    }
}

// Trace records: reading them, as events or as plain numbers, writing them, and finding record number e in a trace, or
// its sources.
//
// This layer knows nothing of threads or crashes: a field's value may be anything from 0 to 65,535. Every public call
// takes any input, always returns, and has no `requires`; its answer, and every byte lent for writing, is an equation
// with a definition of specs/. Behind a shared reference nothing can change.
#![tactic(auto)]

mod bytes;
mod events;
mod kinds;
mod parts;
mod reader;
mod reading;
mod refusal;
mod scanning;
mod versions;
mod writing;

pub use events::{Event, Fields, event_of, fields_of, kind_of};
pub use parts::{Place, Source, SourceAt, part, place_of, source_at};
pub use reader::{Reader, new, next, read_at, scan, scan_at};
pub use reading::{Read, read_first};
pub use refusal::{NoRefusal, Numbered, Refusal, refusal_of};
pub use scanning::Scan;
pub use versions::later_refusal;
pub use writing::write;

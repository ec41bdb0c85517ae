// The machine of documents 01 and 02: what turns an event away, what an event that passes does, which loads count, and
// how two stores stand. A `Machine` is handed from record to record by value; the machine's tables and the work area,
// whose rows are its own too, are lent.
#![tactic(auto)]

mod clocks;
mod effects;
mod forbidden;
mod order;
mod places;
mod regions;
mod rules;
mod state;
mod steps;
mod tables;
mod threads;

pub use forbidden::Forbidden;
pub use order::{is_store, order_of};
pub use rules::begin_refusal;
pub use state::{Machine, Step};
pub use tables::{Tables, all_committed, last_committed, newest_held};

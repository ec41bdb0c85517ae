// What counted loads do to the judge's marks: which stores are forbidden and which observed, the cut, the lowest
// forbidden places; the test for broken, the evidence, and the cut buffer and the share at the end. The marks stand in
// arrays of their own; the machine's rows are only read.
#![tactic(auto)]

mod cells;
mod end;
mod evidence;
mod flags;
mod held;
mod hits;
mod judged;
mod load;
mod rows;
mod walk;

pub use cells::Marks;
pub use end::percentage;
pub use judged::Load;

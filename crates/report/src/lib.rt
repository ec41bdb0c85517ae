// The lines that the program `verdict` prints for a verdict, and what it has to know of a trace to print them: its
// threads and its finished stretches. Both calls take any input, always return and have no `requires`; their answers,
// and every byte that they were lent, are equations with definitions of specs/.
#![tactic(auto)]

mod lines;
mod page;
mod shape;

pub use lines::report;
pub use shape::{Shape, shape_of};

// Worksheets: polynomials are entered, split step by step, and taken out again.
#![tactic(auto)]

mod enter;
mod fault;
mod making;
mod order;
mod parts;
mod placing;
mod reading;
mod step;
mod take;
mod theorems;

pub use fault::SheetFault;
pub use parts::{Mark, Part, Room, Worksheet};
pub use theorems::{calls_keep, law_of_splitting, one_step};

// The codes of scratch that suffice for a step on any part: 2 times 127 times 127.
pub const MOST_SCRATCH: usize = 32258;

// The most accepted steps that follow one another with no entry between: 2 times 127, less 1.
pub const MOST_STEPS: u32 = 253;

// Polynomials in lent buffers, over every ring, and their division over every field: one text for all of them.
//
// A polynomial is 1 to 128 codes, the constant first. Its last code is not 0, except that the zero polynomial is the single code 0.
// A result goes into the caller's buffer from index 0, its length is the answer, and the rest of the buffer stays. A refused call
// leaves the buffer as it was.
#![tactic(auto)]

mod calls;
mod checks;
mod delivery;
mod division;
mod fault;
mod rows;

pub use calls::{derivative, divide, gcd, product, sum, value};
pub use checks::check;
pub use fault::PolyFault;

// The most codes of a polynomial.
pub const MOST_CODES: usize = 128;

// Rings and fields by their meaning: the traits, residues, prime fields, quotients and the CCSDS symbol field.
//
// An element is a code from 0 to the order less 1. Code 0 is zero and code 1 is one. Code above this crate is written for every
// ring or every field, and knows no more of it than the traits tell.
#![tactic(auto)]

mod asking;
mod fault;
mod modular;
mod polynomial_quotient;
mod powers;
mod primes;
mod row_digits;
mod row_products;
mod symbols;
mod tables;
mod traits;

pub use asking::ask;
pub use fault::FieldFault;
pub use modular::Residues;
pub use polynomial_quotient::Quotient;
pub use powers::power_code;
pub use primes::PrimeField;
pub use row_digits::{scale, write_polynomial};
pub use row_products::{RowFault, multiply_modulo};
pub use symbols::SymbolField;
pub use traits::{Field, Ring};

// The code of one.
pub const ONE: u16 = 1;

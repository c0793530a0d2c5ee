// Splitting of polynomials over finite fields by Berlekamp's method: elimination over the field finds a polynomial whose shifts share
// a factor with the one to split.
#![tactic(auto)]

mod calls;
mod divisors;
mod elimination;
mod fixing;
mod kind;
mod kinds;
mod operand;
mod polynomial;
mod remainders;
mod roots;
mod scratch;
mod shifts;
mod sieves;

pub use calls::split;
pub use kind::Kind;

// Extensions of fields: the quotient of a field by a modulus that does not split is a field again.
#![tactic(auto)]

mod layers;
mod making;
mod theorems;

pub use layers::Extension;
pub use theorems::law_of_extensions;

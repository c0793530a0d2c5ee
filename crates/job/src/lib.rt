// Jobs: bytes that name a field and polynomials over it, and the listing of their factors.
#![tactic(auto)]

mod fault;
mod listing;
mod reader;
mod text;
mod theorems;
mod work;

pub use fault::JobFault;
pub use listing::Listing;
pub use theorems::job_examples;
pub use work::{MOST_JOB_BYTES, run};

//! Input that goes on while its guest runs, and what its reads are.
#![tactic(auto)]

mod fed;
mod laws;

pub use fed::{FedInput, NotFed};
pub use laws::{calls_of_the_whole, runs_of_the_whole};

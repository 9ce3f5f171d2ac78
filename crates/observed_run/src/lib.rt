//! Runs that are looked at: which functions were at work when they stopped, and where their fuel went.
#![tactic(auto)]

mod folding;
mod slices;
mod stacks;
mod telling;

pub use folding::Names;
pub use slices::run_profiled;
pub use stacks::FuelProfile;
pub use telling::{ToldRun, run_told};

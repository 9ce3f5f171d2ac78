//! What a run of a module means: configurations, the steps of the standard, units of fuel, and how a run ends.
#![tactic(auto)]

mod laws;
mod pause;

pub use laws::steps_take_their_units;
pub use pause::{Outcome, Pause};
pub use wasm_num::Trap;
pub use wasm_store::{Answer, Errno, HostCall};

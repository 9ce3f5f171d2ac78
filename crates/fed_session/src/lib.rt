//! Instances whose input goes on while they run: a guest that reads more than is there waits until its host has more, and all that
//! it does is what it does with the whole input.
#![tactic(auto)]

mod feeding;
mod laws;
mod linking;
mod plugin;

pub use fed_input::{FedInput, NotFed};
pub use feeding::{FedEvent, FedInstance};
pub use laws::fed_headline;
pub use plugin::FedPlugin;

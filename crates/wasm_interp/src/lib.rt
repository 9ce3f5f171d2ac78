//! A fuelled WebAssembly machine over a host that answers its calls.
#![tactic(auto)]

mod begin;
mod fast;
mod first_entry;
mod frames;
mod invoking;
mod laws;
mod machine;
mod meaning;
mod plain;
mod plugin;
mod run_fast;
mod running;
mod shared;
mod state;

pub use frames::{Frame, frames_are_the_configurations};
pub use invoking::{InvokedMachine, MOST_ARGUMENTS};
pub use laws::{
    limits_change_no_configuration, machines_keep_to_their_values, machines_show_their_stores,
};
pub use machine::{Machine, RefusedInstance};
pub use meaning::{OwnMeaning, SnapshotMeaning, own_meaning_tells_stores};
pub use plugin::PreparedPlugin;
pub use shared::{PreparedModule, SharedMachine, shared_machines_cross};
pub use state::MOST_VALUES;
pub use wasm_num::Trap;
pub use wasm_operands::activation::Activation;
pub use wasm_operands::phase::{Ask, Phase};
pub use wasm_places::invocable::{AskedCall, Event, NotAnswered, NotInvoked, NotWritten};
pub use wasm_steps::{Outcome, Pause};
pub use wasm_store::{Answer, Errno, Host, HostCall, InstanceFault, Memory};

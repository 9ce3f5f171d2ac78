//! Instances whose exported functions are called, over a volume: a machine, and the host that answers its calls of WASI.
#![tactic(auto)]

mod accessing;
mod deferring;
mod handling;
mod instance;
mod laws;
mod plugin;

pub use handling::Misuse;
pub use instance::Instance;
pub use laws::instance_headline;
pub use plugin::Plugin;
pub use plugin_core::Stage;
pub use sandbox_core::{Finished, RefusedParts, SessionFault};
pub use wasm_interp::{AskedCall, Event, MOST_ARGUMENTS};

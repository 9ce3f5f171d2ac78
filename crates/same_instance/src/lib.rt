//! The same module, supplies, volume and actions give the same life of an instance, unless the host failed: memory, a stream or
//! the device.
#![tactic(auto)]

mod laws;

pub use laws::same_instance;

//! The calls of WASI preview 1: what each means, what a guest cannot reach by them, and what a crash
//! may leave of its volume.
#![tactic(auto)]

mod host;
mod laws;

pub use host::VolumeHost;
pub use host::fault::HostFault;
pub use host::linking::call_of;
pub use host::wasi_host::{HostParts, RefusedHost, WasiHost};
pub use laws::{
    confined, confined_host, host_calls_are_rows, host_calls_keep_moments, kept, pauses,
    streams_are_heard,
};
pub use wasi_bodies::settings::{Preopen, Settings};
pub use wasi_bodies::streams::{Input, Output, Terminals};

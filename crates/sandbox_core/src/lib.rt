//! Sessions: a module with a volume and the streams of its guest, run with exact fuel.
#![tactic(auto)]

mod fault;
pub mod laws;
mod loading;
mod report;
mod resumable;
mod session;
mod shared;
mod shared_report;
mod slice;
mod tally;

pub use fault::{SessionFault, of_host, of_instance};
pub use loading::{load, load_with};
pub use report::{Report, run, run_counted, run_counted_with_module};
pub use resumable::Resumable;
pub use session::{Finished, RefusedSession, Session, give_back};
pub use shared::{Linker, RefusedParts, SharedModule, SharedSession};
pub use shared_report::run_counted_shared;
pub use slice::{finish_run, run_slice};
pub use tally::{Answers, Tally};
pub use vol_sector::Refused;
pub use vol_tree::Volume;
pub use wasi_calls::{HostParts, Preopen, Settings, Terminals};
pub use wasm_interp::{
    Errno, Frame, Host, HostCall, InstanceFault, Outcome, Pause, Trap,
    frames_are_the_configurations,
};
pub use wasm_valid::{LoadFault, Valid};

//! The commands of the program `sandbox`: what a command line asks for, on which files and streams it
//! is done, and with which status it ends.
#![tactic(auto)]

mod archive;
mod closing;
mod files;
mod inspecting;
pub mod laws;
mod list_of_tests;
mod opening;
mod refused_line;
mod runs;

pub use files::{exit_code, perform, perform_in};
pub use list_of_tests::run_list;
pub use observed_run::{FuelProfile, Names};
pub use sandbox_args::{
    Change, GivenTerminals, GuestLimits, Invocation, ListForm, Run, Task, invocation,
};
pub use sandbox_device::{FileDevice, FileOutput, Hindrance, RamDevice};
pub use sandbox_places::host_volume::HostVolume;
pub use sandbox_places::places::Places;
pub use sandbox_report::{Printed, Summary};
pub use sandbox_runs::program::{Executed, execute, refuse_command_line, refuse_words};
pub use sandbox_telling::profiling::FuelUse;
pub use sandbox_telling::stopping::Stopped;
pub use sandbox_telling::streams::{InputSource, Sink, SpareStreams, Streams};
pub use sandbox_telling::work::VolumeWork;
pub use stream_answers::{Inlet, Outlet};
pub use vol_commands::FRESH_SECTORS;
pub use vol_inode::Version;

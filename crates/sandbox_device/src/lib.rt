//! Files and memory as devices of the program.
#![tactic(auto)]

mod beside;
mod file_device;
mod history;
mod identity;
pub mod laws;
mod moments;
mod new_bytes;
mod opening;
mod part;
mod past;
mod ram_device;
mod recorded_device;
mod replacing;
mod sector_file;
mod sectors;
mod written_file;

pub use file_device::FileDevice;
pub use identity::Identity;
pub use new_bytes::Contents;
pub use opening::{FileOutput, OutputOn, open_image, open_to_read};
pub use ram_device::RamDevice;
pub use recorded_device::RecordedDevice;
pub use replacing::{Hindrance, Replacement};
pub use sector_file::SectorFile;
pub use written_file::WrittenFile;

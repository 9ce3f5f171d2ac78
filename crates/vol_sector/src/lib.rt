//! Devices of 512-byte sectors, what a crash may leave of them, and why a volume is refused.
#![tactic(auto)]

mod device;
mod fault;
mod faulty;
mod laws;
mod memory;
mod operations;
mod record;

pub use device::{Device, DeviceFault};
pub use fault::{Damage, Refused, Rule, VolumeFault};
pub use faulty::{FaultyDevice, FlakyDevice, FuseDevice};
pub use laws::{crash_leaves_what_is_picked, picks_give_what_a_crash_leaves};
pub use memory::MemoryDevice;
pub use record::Operation;

/// The 512 bytes of a sector.
pub type Sector = [u8; 512];

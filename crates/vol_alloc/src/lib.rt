//! The data sectors of a volume: which ones are taken, and which are free.
#![tactic(auto)]

mod laws;
mod sectors;

pub use laws::listed_sectors_are_taken;
pub use sectors::Alloc;

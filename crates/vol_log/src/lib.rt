//! A redo log of 120 sectors: a crash leaves all that was staged or nothing of it.
#![tactic(auto)]

mod batch;
mod header;
mod index;
mod layout;
mod log;
mod replay;
mod staged;
mod steps;

pub use layout::{FIRST_AFTER_LOG, HEADER};
pub use log::Log;
pub use staged::Staged;

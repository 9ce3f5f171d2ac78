//! What a host may rest on, proved from the public contracts of the crates below and from nothing else.
#![tactic(auto)]

mod file;

pub use file::{FileFault, found_after_a_crash, opened_after_a_crash, store};

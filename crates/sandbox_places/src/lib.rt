//! Where a command finds its files: any `Places`, and the files of the system; and which options don't go together.

#![tactic(auto)]

pub mod clashing;
pub mod host_places;
pub mod host_volume;
pub mod places;
pub mod possession;
pub mod reading;
pub mod receiver;

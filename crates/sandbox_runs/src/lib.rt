//! A run or a task on one device and three streams, and the status that it ends with. Which files those are no item here knows.

#![tactic(auto)]

pub mod checking;
pub mod ending;
mod invoking;
mod opening;
pub mod program;
pub mod sessions;

//! The report of a run: how it ended and what it used, as lines `key:value`.
#![tactic(auto)]

mod counted;
mod end;
mod fault;
mod printing;
mod summary;

pub use counted::Counted;
pub use end::{End, outcome_number, trap_number};
pub use fault::{Fault, rule_text};
pub use printing::Printed;
pub use summary::{CutStreams, Summary, VolumeEnd};

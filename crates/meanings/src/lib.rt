//! One register of what numbers mean: faults, traps, errnos and ends of a run, each with its text; statuses; and the version.
#![tactic(auto)]

mod cures;
pub mod status;
mod tables;
mod version;

pub use cures::{ERRNO_CURES, FAULT_CURES, errno_cure, fault_cure};
pub use tables::{
    ENDS, ERRNOS, FAULTS, Meaning, TRAPS, end_label, errno_text, fault_text, text_of, trap_text,
};
pub use version::{VERSION, VERSION_NUMBER, version_has_its_number};

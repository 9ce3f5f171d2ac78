//! The same module, supplies and volume give the same run, unless the host failed: memory, a stream or the device.
#![tactic(auto)]

mod laws;

pub use laws::{
    one_end, one_next_step, one_run, one_start, same_program_report, same_program_run, same_report,
    same_run, worlds_answer_once,
};

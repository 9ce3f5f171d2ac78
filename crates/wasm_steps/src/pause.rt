//! Why a machine comes back, and how a run ends.

use wasm_num::Trap;
use wasm_store::{Errno, HostCall};

/// How a run ends.
#[derive(Clone, Copy, Debug, PartialEq, Eq)]
pub enum Outcome {
    /// The guest exited with this status; 0 also where `_start` returned.
    Exited(u32),
    Trapped(Trap),
    /// The fuel was used up. A machine never ends so: who runs it with fuel says it.
    OutOfFuel,
    /// Memory was refused to the stacks of the guest.
    OutOfMemory,
}

/// Why a machine came back.
#[derive(Clone, Copy, Debug, PartialEq, Eq)]
pub enum Pause {
    /// Exactly one host call was answered, with this errno.
    Called(HostCall, Errno),
    /// The next step would rewrite a plain instruction, and no unit is left.
    Spent,
    Ended(Outcome),
}

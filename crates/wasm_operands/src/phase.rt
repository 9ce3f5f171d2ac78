//! Where a machine is.

use wasm_steps::Outcome;

/// Where a machine is.
#[derive(Clone, Copy)]
pub enum Phase {
    /// Inside one of the module's own functions.
    Within,
    /// Outside all functions.
    Between,
    /// Outside all functions: the run is out of memory, which was refused to the function that comes next.
    Refused,
    Over(Outcome),
    /// Inside one of the module's own functions, whose next instruction calls a function of whoever embeds the machine.
    Asking(Ask),
}

/// A call of a function of whoever embeds the machine.
#[derive(Clone, Copy)]
pub struct Ask {
    /// The import, by its index.
    pub function: usize,
    /// How many values stand above its arguments: the index of a `call_indirect`, or none.
    pub above: usize,
}

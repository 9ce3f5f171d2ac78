//! Why a run in a function stops.

use wasm_num::Trap;

/// Why a run in a function stops.
#[derive(Clone, Copy)]
pub enum Halt {
    /// This function is called next.
    Call(u32),
    /// A function of the table is called next, of the type of this index.
    CallIndirect(u32),
    /// The function returns next.
    Return,
    /// The function has ended.
    End,
    /// The next instruction traps.
    Trap(Trap),
    /// No unit is left for the next instruction.
    Spent,
    /// An instruction was performed, and others may be performed at once.
    Again,
    /// Memory was refused to the values.
    Full,
}

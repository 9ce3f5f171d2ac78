//! Functions at work.

/// A function at work, or one to go back to (section 4.2.12).
#[derive(Clone, Copy)]
pub struct Activation {
    /// Which of the module's own functions it is.
    pub function: usize,
    /// The instruction that comes next, by its index in the body.
    pub pc: usize,
    /// How many values stand below its locals.
    pub locals: usize,
    /// How many values stand below its operands.
    pub operands: usize,
    /// How many values it leaves.
    pub arity: usize,
}

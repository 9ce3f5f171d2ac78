//! The plain machine: one step of the standard after the other, of every instruction.
//!
//! `perform` has the step of each instruction that stays in its function (`work`, `operands`, `operators`, `accesses` do
//! what it does to the stack and to memory, `float_operands` and `floats` those on floats), `calls` the steps that lead out of it, and `run_plain` goes on by such steps.

pub mod calls;
pub mod perform;
pub mod run_plain;

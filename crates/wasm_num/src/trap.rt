//! Why a run traps.

use std::fmt;

/// Why a run traps (section 4.4); its text is what `Display` prints.
#[derive(Clone, Copy, Debug, PartialEq, Eq)]
pub enum Trap {
    Unreachable,
    DivideByZero,
    IntegerOverflow,
    InvalidConversion,
    OutOfBoundsMemory,
    UndefinedElement,
    UninitializedElement,
    IndirectCallMismatch,
    CallStackExhausted,
}

impl fmt::Display for Trap {
    fn fmt<W: fmt::Write>(&self, f: &mut fmt::Formatter<W>) -> fmt::Result {
        let text = match self {
            Trap::Unreachable => "unreachable",
            Trap::DivideByZero => "integer divide by zero",
            Trap::IntegerOverflow => "integer overflow",
            Trap::InvalidConversion => "invalid conversion to integer",
            Trap::OutOfBoundsMemory => "out of bounds memory access",
            Trap::UndefinedElement => "undefined element",
            Trap::UninitializedElement => "uninitialized element",
            Trap::IndirectCallMismatch => "indirect call type mismatch",
            Trap::CallStackExhausted => "call stack exhausted",
        };
        write!(f, "{text}")
    }
}

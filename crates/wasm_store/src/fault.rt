//! Why a module can't be instantiated.

ghost use Rattle.std.specs.Prelude.{◌≡◌};
ghost use Rattle.wasm_store.specs.declared.fault.InstanceFault.TheVariants.{Memory};

use std::alloc::{AllocError, AllocFailed};
use std::error::Error;
use std::fmt;

/// Why a valid module can't be instantiated.
#[derive(Clone, Copy, PartialEq, Eq)]
pub enum InstanceFault {
    /// An import is no function, or the host has no such call.
    Import,
    /// No function `_start` of type `[] -> []` is exported.
    NoStart,
    /// A data segment passes the end of memory.
    DataOutOfBounds,
    /// An element segment passes the end of the table.
    ElementOutOfBounds,
    /// Memory begins with more pages than the limit.
    PageLimit,
    /// Memory was refused.
    Memory,
}

impl InstanceFault {
    fn text(self) -> &'static str {
        match self {
            InstanceFault::Import => "fault 13",
            InstanceFault::NoStart => "fault 14",
            InstanceFault::DataOutOfBounds => "fault 20",
            InstanceFault::ElementOutOfBounds => "fault 21",
            InstanceFault::PageLimit => "fault 22",
            InstanceFault::Memory => "out of memory",
        }
    }
}

// By hand, since derived ones write each variant by itself.

impl fmt::Display for InstanceFault {
    fn fmt<W: fmt::Write>(&self, f: &mut fmt::Formatter<W>) -> fmt::Result {
        f.write_str(self.text())
    }
}

impl fmt::Debug for InstanceFault {
    fn fmt<W: fmt::Write>(&self, f: &mut fmt::Formatter<W>) -> fmt::Result {
        fmt::Display::fmt(self, f)
    }
}

impl Error for InstanceFault {}

impl From<AllocError> for InstanceFault {
    ghost from_gives = { λ _ e. e ≡ Memory };

    fn from(_e: AllocError) -> InstanceFault {
        InstanceFault::Memory
    }
}

impl<T: Drop> From<AllocFailed<T>> for InstanceFault {
    ghost from_gives = { λ _ e. e ≡ Memory };

    fn from(_e: AllocFailed<T>) -> InstanceFault {
        InstanceFault::Memory
    }
}

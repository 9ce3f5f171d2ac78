//! Why a module can't be loaded.

ghost use Rattle.std.specs.Prelude.{◌≡◌};
ghost use Rattle.wasm_syntax.specs.declared.fault.LoadFault.TheVariants.{Memory};

use std::alloc::{AllocError, AllocFailed};
use std::error::Error;
use std::fmt;

/// Why bytes are no module that can be loaded. An offset counts bytes from the first one of the
/// input.
#[derive(Clone, Copy, PartialEq, Eq)]
pub enum LoadFault {
    /// The input ends too early; the offset is its length.
    Truncated { offset: u32 },
    /// The first four bytes aren't `00 61 73 6D`.
    BadMagic { offset: u32 },
    /// The next four bytes aren't `01 00 00 00`.
    BadVersion { offset: u32 },
    /// A number is too long, or its unused bits are wrong.
    BadInteger { offset: u32 },
    /// A section stands after one of its own or a greater id.
    SectionOrder { offset: u32 },
    /// What has a size of its own doesn't fill it.
    SectionSize { offset: u32 },
    /// A byte that has no meaning where it stands.
    BadByte { offset: u32 },
    /// A name that isn't UTF-8.
    NotUtf8 { offset: u32 },
    /// Two counts that have to agree differ; the offset is the input's length.
    CountMismatch { offset: u32 },
    /// A type or an instruction of floating point.
    Float { offset: u32 },
    /// More than the profile allows.
    Limit { offset: u32 },
    /// The module isn't valid. The function is counted among the module's own ones.
    Invalid { function: Option<u32>, offset: u32 },
    /// Memory was refused.
    Memory,
}

impl LoadFault {
    /// The fault of a part with a size of its own, which stands at this offset: where the part
    /// ends too early, that is no end of the input.
    pub fn inside(self, size_offset: u32) -> LoadFault
        ensures { self ≡ Memory → result ≡ Memory }
    {
        match self {
            LoadFault::Truncated { .. } => LoadFault::SectionSize {
                offset: size_offset,
            },
            other => other,
        }
    }

    /// Its number and its offset; none where memory was refused.
    fn place(self) -> Option<(u32, u32)> {
        match self {
            LoadFault::Truncated { offset } => Some((1, offset)),
            LoadFault::BadMagic { offset } => Some((2, offset)),
            LoadFault::BadVersion { offset } => Some((3, offset)),
            LoadFault::BadInteger { offset } => Some((4, offset)),
            LoadFault::SectionOrder { offset } => Some((5, offset)),
            LoadFault::SectionSize { offset } => Some((6, offset)),
            LoadFault::BadByte { offset } => Some((7, offset)),
            LoadFault::NotUtf8 { offset } => Some((8, offset)),
            LoadFault::CountMismatch { offset } => Some((9, offset)),
            LoadFault::Float { offset } => Some((10, offset)),
            LoadFault::Limit { offset } => Some((11, offset)),
            LoadFault::Invalid { offset, .. } => Some((12, offset)),
            LoadFault::Memory => None,
        }
    }
}

// By hand, since derived ones write each variant by itself.

impl fmt::Display for LoadFault {
    fn fmt<W: fmt::Write>(&self, f: &mut fmt::Formatter<W>) -> fmt::Result {
        match self.place() {
            Some((number, offset)) => write!(f, "fault {number} at {offset}"),
            None => write!(f, "out of memory"),
        }
    }
}

impl fmt::Debug for LoadFault {
    fn fmt<W: fmt::Write>(&self, f: &mut fmt::Formatter<W>) -> fmt::Result {
        fmt::Display::fmt(self, f)
    }
}

impl Error for LoadFault {}

impl From<AllocError> for LoadFault {
    ghost from_gives = { λ _ e. e ≡ Memory };

    fn from(_e: AllocError) -> LoadFault {
        LoadFault::Memory
    }
}

impl<T: Drop> From<AllocFailed<T>> for LoadFault {
    ghost from_gives = { λ _ e. e ≡ Memory };

    fn from(_e: AllocFailed<T>) -> LoadFault {
        LoadFault::Memory
    }
}

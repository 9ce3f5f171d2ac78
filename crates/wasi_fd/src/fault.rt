//! Why a descriptor is refused.

ghost use Rattle.wasi_fd.specs.Fault.{errno_of};

use thiserror::Error;

/// Why a descriptor is refused. The text is the error number of WASI preview 1.
#[derive(Clone, Copy, Debug, PartialEq, Eq, Error)]
pub enum DescriptorFault {
    /// No descriptor of this number is open.
    #[error("errno 8")]
    NotOpen,
    /// All places are taken.
    #[error("errno 33")]
    Full,
}

impl DescriptorFault {
    ghost use Rattle.std.specs.Prelude.{◌≡◌};

    /// The error number of WASI preview 1: `badf` or `mfile`.
    pub fn errno(self) -> u16
        ensures { result ≡ errno_of self }
    {
        match self {
            DescriptorFault::NotOpen => 8,
            DescriptorFault::Full => 33,
        }
    }
}

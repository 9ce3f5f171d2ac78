//! Why a call on a tree is refused.

ghost use Rattle.std.specs.Prelude.{◌≡◌};
ghost use Rattle.vol_tree.specs.declared.errno.Errno.TheVariants.{Io};

use std::fmt;
use thiserror::Error;
use vol_sector::DeviceFault;

/// Why a call on a tree is refused.
#[derive(Clone, Copy, PartialEq, Eq, Error)]
pub enum Errno {
    #[error("there is an entry of that name")]
    Exist,
    #[error("the file would be too large")]
    TooBig,
    #[error("it is no text")]
    BadText,
    #[error("invalid argument")]
    Invalid,
    #[error("the device failed")]
    Io,
    #[error("it is a directory")]
    IsDirectory,
    #[error("a name is too long")]
    NameTooLong,
    #[error("there is no entry of that name")]
    NotFound,
    #[error("no space is left")]
    NoSpace,
    #[error("it is no directory")]
    NotDirectory,
    #[error("the directory is not empty")]
    NotEmpty,
    #[error("the path leads out of its directory")]
    NotCapable,
}

// A derived one spells each variant by itself, and the text says the same.
impl fmt::Debug for Errno {
    fn fmt<W: fmt::Write>(&self, f: &mut fmt::Formatter<W>) -> fmt::Result {
        fmt::Display::fmt(self, f)
    }
}

impl Errno {
    ghost use Rattle.std.specs.Prelude.{◌≡◌};
    ghost use Rattle.vol_tree.specs.Numbers.{number_of};

    /// The number that WASI preview 1 has for it.
    pub fn number(self) -> u16
        ensures { result ≡ number_of self }
    {
        match self {
            Errno::Exist => 20,
            Errno::TooBig => 22,
            Errno::BadText => 25,
            Errno::Invalid => 28,
            Errno::Io => 29,
            Errno::IsDirectory => 31,
            Errno::NameTooLong => 37,
            Errno::NotFound => 44,
            Errno::NoSpace => 51,
            Errno::NotDirectory => 54,
            Errno::NotEmpty => 55,
            Errno::NotCapable => 76,
        }
    }
}

impl From<DeviceFault> for Errno {
    ghost from_gives = { λ _ e. e ≡ Io };

    fn from(_: DeviceFault) -> Self {
        Errno::Io
    }
}

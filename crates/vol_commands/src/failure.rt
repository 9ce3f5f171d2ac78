//! Why a task on a volume ends without success.

ghost use Rattle.std.specs.Prelude.{◌≡◌};
ghost use Rattle.vol_commands.specs.declared.failure.Failure.TheVariants.{Volume, Tree, Stream};

use std::{fmt, io};
use thiserror::Error;
use vol_sector::VolumeFault;
use vol_tree::Errno;

/// Why a task on a volume ends without success. The text is what the program says of it.
#[derive(Clone, Copy, Error)]
pub enum Failure {
    /// The volume is refused, or the device failed.
    #[error("{0}")]
    Volume(VolumeFault),
    /// A call on the volume's tree is refused.
    #[error("errno {number}", number = .0.number())]
    Tree(Errno),
    /// The input or the output failed.
    #[error("fault 41")]
    Stream,
}

// A derived one spells each variant by itself, and the text says the same.
impl fmt::Debug for Failure {
    fn fmt<W: fmt::Write>(&self, f: &mut fmt::Formatter<W>) -> fmt::Result {
        fmt::Display::fmt(self, f)
    }
}

impl From<VolumeFault> for Failure {
    ghost from_gives = { λ fault f. f ≡ Volume fault };

    fn from(fault: VolumeFault) -> Self {
        Failure::Volume(fault)
    }
}

impl From<Errno> for Failure {
    ghost from_gives = { λ errno f. f ≡ Tree errno };

    fn from(errno: Errno) -> Self {
        Failure::Tree(errno)
    }
}

impl From<io::Error> for Failure {
    ghost from_gives = { λ _ f. f ≡ Stream };

    fn from(_: io::Error) -> Self {
        Failure::Stream
    }
}

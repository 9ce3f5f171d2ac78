//! Error numbers of WASI preview 1 that calls answer.

ghost use Rattle.std.specs.Prelude.{◌≡◌};
ghost use Rattle.vol_tree.specs.Numbers.{number_of};

use wasm_store::Errno;

/// Fewer random bytes are left than were asked for.
pub const AGAIN: Errno = Errno(6);

/// An entry is held open.
pub const BUSY: Errno = Errno(10);

/// There is an entry of that name.
pub const EXIST: Errno = Errno(20);

/// It is a directory.
pub const ISDIR: Errno = Errno(31);

/// All descriptors are open.
pub const MFILE: Errno = Errno(33);

/// A name is too long.
pub const NAMETOOLONG: Errno = Errno(37);

/// There is no entry of that name.
pub const NOENT: Errno = Errno(44);

/// There is no such call.
pub const NOSYS: Errno = Errno(52);

/// It is no directory.
pub const NOTDIR: Errno = Errno(54);

/// A flag is not supported.
pub const NOTSUP: Errno = Errno(58);

/// A position is past the last one.
pub const OVERFLOW: Errno = Errno(61);

/// A stream has no positions.
pub const SPIPE: Errno = Errno(70);

/// A right is missing.
pub const NOTCAPABLE: Errno = Errno(76);

/// A directory has entries in it.
pub const NOTEMPTY: Errno = Errno(55);

/// The number of a refusal.
pub fn refused(errno: vol_tree::Errno) -> Errno
    ensures { result.0 ≡ number_of errno }
{
    Errno(errno.number())
}

//! What is kept of an entry beside its name.

ghost use Rattle.std.specs.Prelude.{◌≡◌};
ghost use Rattle.vol_dirs.specs.Seats.{seat_of};

use vol_inode::{Entry, Kind};

/// What a walk needs of an entry: the number of the directory that it is in, which is 0 for the
/// root, and whether it is a directory itself.
#[derive(Clone, Copy)]
pub struct Seat {
    pub parent: u32,
    pub directory: bool,
}

/// The seat of an entry.
pub(crate) fn seat_of(entry: &Entry) -> Seat
    ensures { result ≡ seat_of entry.now }
{
    Seat {
        parent: entry.parent,
        directory: entry.kind == Kind::Directory,
    }
}

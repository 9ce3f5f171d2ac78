//! The space that files take.

ghost use Rattle.std.specs.Prelude.{◌≡◌};
ghost use Rattle.vol_inode.specs.Space.{need_of};

use crate::pointers::{DIRECT, LISTED, NUMBERS, SERVED, TWICE_LISTED};

/// How many data sectors a file of this size in bytes reserves: one for each 512 bytes, and those
/// that list them.
pub fn need(size: u32) -> u32
    ensures { result ≡ need_of size }
{
    let count = size.div_ceil(512);
    if count <= DIRECT {
        count
    } else if count <= LISTED {
        count + 1
    } else if count <= TWICE_LISTED {
        count + 2 + (count - LISTED).div_ceil(NUMBERS)
    } else {
        let later = count - LISTED;
        count + 2 + later.div_ceil(NUMBERS) + later.div_ceil(SERVED)
    }
}

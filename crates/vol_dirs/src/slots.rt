//! Where the slots of the entries are on the disk.

ghost use Rattle.std.specs.Prelude.{◌≡◌, ◌<◌, ◌^◌};
ghost use Rattle.vol_dirs.specs.Slots.{slot_sector};

use vol_inode::Serial;
use vol_log::FIRST_AFTER_LOG;

/// The sector of the slot of the entry with this serial, which counts from 1.
pub fn slot_sector(serial: Serial) -> u32
    requires { slot_sector serial < 2 ^ 32 }
    ensures { result ≡ slot_sector serial }
{
    FIRST_AFTER_LOG - 1 + serial.number()
}

//! What is told of a volume.

ghost use Rattle.vol_log.specs.Log.{device_of};
ghost use Rattle.std.specs.Prelude.{◌≡◌};

use crate::parts::Parts;
use vol_inode::Serial;
use vol_sector::Device;

/// What is told of a volume.
#[derive(Clone, Copy)]
pub struct Stats {
    /// The entries, with the root.
    pub entries: u32,
    /// The slots for entries.
    pub slots: u32,
    /// The sectors that the files need by their sizes.
    pub needed: u32,
    /// The sectors that there are for files.
    pub sectors: u32,
}

impl<D: Device> Parts<D> {
    ghost use Rattle.vol_tree.specs.Parts.{opened};
    ghost use Rattle.vol_tree.specs.internal.Parts.{IsOpen};
    ghost use Rattle.vol_tree.specs.Stats.{entries_of};

    /// How many slots are used.
    pub fn entries(&self) -> u32
        requires { IsOpen self.now }
        ensures { D.honest (device_of self.now.log) → result ≡ entries_of (opened self.now).tree }
    {
        let mut count = 0;
        for slot in 0..self.numbers.slots {
            if self.dirs.is_used(Serial::new(slot + 1)) {
                count += 1;
            }
        }
        count
    }
}

//! The names of a new volume.

ghost use Rattle.std.specs.Prelude.{◌≡◌, ◌≤◌, ℕ, IfOk};
ghost use Rattle.vol_sector.specs.Disk.{Image};
ghost use Rattle.vol_inode.specs.declared.version.Version.{Version};
ghost use Rattle.vol_inode.specs.Entry.{IsEntry, HasName};
ghost use Rattle.vol_inode.specs.Spelling.{spelling, unused};
ghost use Rattle.vol_dirs.specs.Slots.{slot_sector};
ghost use Rattle.vol_dirs.specs.Names.{slots_of, Shows};

use crate::Dirs;
use std::alloc::{AllocError, Global};
use vol_inode::{Entry, Serial};

impl Dirs {
    /// The names of a volume whose first slot holds this entry, and whose other slots aren't used.
    /// No slot is read.
    ///
    /// It is refused where there is no memory. It reserves the memory for all later calls, as `open`
    /// does.
    pub fn of_root(alloc: Global, slots: u32, root: &Entry) -> Result<Dirs, AllocError>
        requires some { 1 ≤ slots }
        requires named { HasName root.now }
        ensures shows { (version : Version) (image : Image) → IsEntry version root.now
            → image (slot_sector 1) ≡ spelling root.now
            → ((s : ℕ) → 2 ≤ s → s ≤ slots → image (slot_sector s) ≡ unused)
            → IfOk result (λ dirs. Shows version image slots dirs) }
        ensures slots { IfOk result (λ dirs. slots_of dirs ≡ slots) }
    {
        let mut dirs = Dirs::reserve(alloc, slots)?;
        dirs.hold(Serial::ROOT, root);
        Ok(dirs)
    }
}

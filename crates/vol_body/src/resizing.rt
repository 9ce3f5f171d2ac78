//! Setting the size of a file.

ghost use Rattle.std.specs.Prelude.{◌≡◌, ◌≤◌, true, OnOk, OnErr, IsErr, is_err};
ghost use Rattle.vol_log.specs.Log.{view, has_failed};
ghost use Rattle.vol_body.specs.Body.{bytes_of};
ghost use Rattle.vol_body.specs.Bytes.{resized_bytes};
ghost use Rattle.vol_body.specs.Change.{CanChange, IfSound, FileBecomes, LosesNoSector, EntryBecomes};
ghost use Rattle.vol_log.specs.Reading.{OnlyReads};
ghost use Rattle.vol_body.specs.Reading.{StagesAtMost};
ghost use Rattle.vol_inode.specs.declared.version.TheConstants.{LARGEST_SIZE};

use crate::growing::grow;
use crate::shrinking::shrink;
use vol_alloc::Alloc;
use vol_inode::Entry;
use vol_log::Log;
use vol_sector::{Device, DeviceFault};

/// Sets the size in bytes of the file whose entry is in this sector. Bytes that it gains are zeros,
/// and the sectors that it needs no more are given back. It stages five sectors at most, the entry
/// last.
///
/// It is refused where a device operation failed, or had failed before. Then nothing was staged,
/// but sectors may have been given back.
pub fn set_size<D: Device>(
    log: &mut Log<D>,
    sectors: &mut Alloc,
    inode_sector: u32,
    entry: &mut Entry,
    size: u32,
) -> Result<(), DeviceFault>
    requires can { CanChange 5 inode_sector log.old sectors.old entry.old }
    requires small { size ≤ LARGEST_SIZE }
    // Read as a list, the file is cut or has zeros after it; no free sector is lost.
    ensures file { IfSound log.old sectors.old entry.old (OnOk result
        (FileBecomes inode_sector sectors.old sectors.new (view log.old) (view log.new) entry.old
        entry.new (resized_bytes size (bytes_of (view log.old) entry.old)))) }
    ensures none_lost { IfSound log.old sectors.old entry.old (OnOk result
        (LosesNoSector sectors.old sectors.new (view log.old) (view log.new) entry.old
        entry.new)) }
    ensures entry { OnOk result (EntryBecomes inode_sector size (view log.new) entry.old
        entry.new) }
    ensures steps { StagesAtMost 5 log.old log.new sectors.old sectors.new (is_err result) }
    ensures refused { OnErr result ((OnlyReads log.old log.new) × (entry.new ≡ entry.old)) }
    ensures idle { has_failed log.old ≡ true → (log.new ≡ log.old) × IsErr result }
{
    if size < entry.size {
        return shrink(log, sectors, inode_sector, entry, size);
    }
    grow(log, inode_sector, entry, size)
}

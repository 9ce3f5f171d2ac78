//! Lengthening a file.

ghost use Rattle.std.specs.Prelude.{◌≡◌, ◌≤◌, ◌<◌, ◌+◌, ◌-◌, ◌++◌, OnOk, OnErr, is_err};
ghost use Rattle.std.specs.Prelude.{replicate, if◌then◌else◌};
ghost use Rattle.vol_sector.specs.Disk.{put};
ghost use Rattle.vol_log.specs.Log.{view, log_sectors, room_of, is_staged, has_failed, device_of};
ghost use Rattle.vol_inode.specs.Spelling.{spelling};
ghost use Rattle.vol_body.specs.Body.{bytes_of, IsBody, NamesOthers};
ghost use Rattle.vol_log.specs.declared.layout.TheConstants.{FIRST_AFTER_LOG};
ghost use Rattle.vol_inode.specs.declared.version.TheConstants.{LARGEST_SIZE};

use vol_inode::{Entry, write_entry};
use vol_log::Log;
use vol_sector::{Device, DeviceFault};

/// Lengthens the file, whose entry is in this sector, by zeros. It stages only the entry.
///
/// It is refused where the log has failed before, and then nothing was staged.
pub fn grow<D: Device>(
    log: &mut Log<D>,
    inode_sector: u32,
    entry: &mut Entry,
    size: u32,
) -> Result<(), DeviceFault>
    requires after_log { FIRST_AFTER_LOG ≤ inode_sector }
    requires there { inode_sector < log_sectors log.old }
    requires room { 0 < room_of log.old }
    requires sizes { (entry.old.size ≤ size) × (size ≤ LARGEST_SIZE) }
    ensures bytes { IsBody (view log.old) entry.old
        → NamesOthers (view log.old) entry.old inode_sector
        → OnOk result (bytes_of (view log.new) entry.new ≡ bytes_of (view log.old) entry.old
        ++ replicate (size - entry.old.size) 0) }
    ensures rules { IsBody (view log.old) entry.old
        → NamesOthers (view log.old) entry.old inode_sector
        → OnOk result (IsBody (view log.new) entry.new) }
    ensures entry { OnOk result (entry.new ≡ record entry.old { size = size }) }
    ensures staged { OnOk result
        (view log.new ≡ put inode_sector (spelling entry.new) (view log.old)) }
    ensures room { OnOk result (room_of log.new
        ≡ (if is_staged log.old inode_sector then room_of log.old else room_of log.old - 1)) }
    ensures log { (device_of log.new ≡ device_of log.old)
        × (log_sectors log.new ≡ log_sectors log.old) × (has_failed log.new ≡ has_failed log.old) }
    ensures refused { OnErr result ((log.new ≡ log.old) × (entry.new ≡ entry.old)) }
    ensures fails { is_err result ≡ has_failed log.old }
{
    if log.failed() {
        return Err(DeviceFault);
    }
    entry.size = size;
    log.stage(inode_sector, &write_entry(entry));
    Ok(())
}

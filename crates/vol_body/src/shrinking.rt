//! Shortening a file.

ghost use Rattle.std.specs.Prelude.{◌≡◌, ◌<◌, ℕ, true, OnOk, OnErr, IsErr, is_err};
ghost use Rattle.std.specs.Prelude.{nat_lt, slice_index, if◌then◌else◌};
ghost use Rattle.vol_log.specs.Log.{view, has_failed};
ghost use Rattle.vol_body.specs.Body.{bytes_of};
ghost use Rattle.vol_body.specs.Bytes.{resized_bytes};
ghost use Rattle.vol_body.specs.Change.{CanChange, IfSound, FileBecomes, LosesNoSector, EntryBecomes};
ghost use Rattle.vol_inode.specs.Entry.{first_block_of_pointer};
ghost use Rattle.vol_log.specs.Reading.{OnlyReads};
ghost use Rattle.vol_body.specs.Reading.{StagesAtMost};

use crate::freeing::free_unkept;
use crate::holding::hold;
use crate::locate::LAST;
use crate::truncation::{read_truncation, stage_truncation};
use vol_alloc::Alloc;
use vol_inode::{Entry, first_block_of_pointer, write_entry};
use vol_log::Log;
use vol_sector::{Device, DeviceFault};

/// The pointers of a file that keeps this many data blocks.
fn kept_pointers(pointers: &[u32; 61], count: u32) -> [u32; 61]
    ensures { (j : ℕ) → j < 61 → slice_index result j
        ≡ (if nat_lt (first_block_of_pointer j) count then slice_index pointers.now j else 0) }
{
    let mut kept = [0; 61];
    for j in 0..61 {
        if first_block_of_pointer(j) < count {
            kept[j] = pointers[j];
        }
    }
    kept
}

/// Shortens the file, whose entry is in this sector. It stages the entry, and at most four
/// sectors of which the file keeps a beginning, with zeros after it; it frees those that the
/// file names no more. Each pointer sector that it needs is read once.
///
/// It is refused where a device operation failed, or had failed before. Then nothing was staged, and
/// the sectors may have been given back.
pub fn shrink<D: Device>(
    log: &mut Log<D>,
    sectors: &mut Alloc,
    inode_sector: u32,
    entry: &mut Entry,
    size: u32,
) -> Result<(), DeviceFault>
    requires can { CanChange 5 inode_sector log.old sectors.old entry.old }
    requires shorter { size < entry.old.size }
    ensures file { IfSound log.old sectors.old entry.old (OnOk result
        (FileBecomes inode_sector sectors.old sectors.new (view log.old) (view log.new) entry.old
        entry.new (resized_bytes size (bytes_of (view log.old) entry.old)))) }
    ensures none_lost { IfSound log.old sectors.old entry.old (OnOk result
        (LosesNoSector sectors.old sectors.new (view log.old) (view log.new) entry.old
        entry.new)) }
    ensures entry { OnOk result (EntryBecomes inode_sector size (view log.new) entry.old
        entry.new) }
    ensures steps { StagesAtMost 5 log.old log.new sectors.old sectors.new (is_err result) }
    ensures refused { OnErr result ((OnlyReads log.old log.new) × (entry.new ≡ entry.old)) }
    ensures idle { has_failed log.old ≡ true → (log.new ≡ log.old) × IsErr result }
{
    if log.failed() {
        return Err(DeviceFault);
    }
    let held = hold(log, sectors, entry, size / 512, LAST)?;
    let truncation = read_truncation(log, sectors, entry, &held, size)?;
    let count = size.div_ceil(512);
    free_unkept(log, sectors, entry, &held, count)?;
    stage_truncation(log, &truncation);
    entry.size = size;
    entry.pointers = kept_pointers(&entry.pointers, count);
    log.stage(inode_sector, &write_entry(entry));
    Ok(())
}

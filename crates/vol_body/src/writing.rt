//! Writing the bytes of a file.

ghost use Rattle.std.specs.Prelude.{◌≡◌, ◌≤◌, ◌<◌, ◌+◌, ◌-◌, ◌*◌, ◌/◌, ℕ, true, false, length, max, OnOk, OnErr, IfOk, IsErr, is_err};
ghost use Rattle.vol_log.specs.Log.{view, log_sectors, has_failed, device_of};
ghost use Rattle.vol_alloc.specs.Alloc.{end_of, taken_of, free_of};
ghost use Rattle.vol_inode.specs.Space.{need_of};
ghost use Rattle.vol_inode.specs.Entry.{HasWidths};
ghost use Rattle.vol_body.specs.Body.{data_block, named, block_bytes, NamesTaken, bytes_of};
ghost use Rattle.vol_body.specs.Bytes.{written_bytes};
ghost use Rattle.vol_body.specs.Change.{CanChange, used_of, IfSound, FileBecomes, LosesNoSector, EntryBecomes};
ghost use Rattle.vol_log.specs.Reading.{OnlyReads};
ghost use Rattle.vol_body.specs.Reading.{StagesAtMost};
ghost use Rattle.vol_body.specs.internal.Writing.{MirrorsAll, WriteLeaves};
ghost use Rattle.vol_inode.specs.declared.pointers.TheConstants.{MOST_BLOCKS, NUMBERS};
ghost use Rattle.vol_inode.specs.declared.version.TheConstants.{LARGEST_SIZE};

use crate::locate::read_taken;
use crate::pointer_sectors::{PointerSectors, load_pointer_sectors, sector_by};
use crate::source::Source;
use crate::writing_image::Piece;
use crate::writing_spans::write_blocks;
use vol_alloc::Alloc;
use vol_inode::{Entry, write_entry};
use vol_log::Log;
use vol_sector::{Device, DeviceFault, Sector};

/// The most bytes that one call of `write_at` writes.
pub const PIECE: usize = 16_384;

/// Writes the bytes, at most `PIECE`, at the offset of the file whose entry is in the sector
/// `inode_sector`. A gap before them reads as zeros. Of no bytes nothing changes.
///
/// It is refused where a device operation failed, or had failed before, and then nothing was
/// staged. All reads come before the first sector is staged.
pub fn write_at<D: Device>(
    log: &mut Log<D>,
    sectors: &mut Alloc,
    inode_sector: u32,
    entry: &mut Entry,
    offset: u32,
    bytes: &Source<'_>,
) -> Result<(), DeviceFault>
    requires can { CanChange 39 inode_sector log.old sectors.old entry.old }
    requires small { offset + length bytes.now ≤ LARGEST_SIZE }
    requires few { length bytes.now ≤ PIECE }
    requires space { IfSound log.old sectors.old entry.old
        (need_of (max entry.old.size (offset + length bytes.now))
        ≤ free_of sectors.old + used_of (view log.old) entry.old) }
    // The bytes stand in the file, and no free sector is lost.
    ensures file { IfSound log.old sectors.old entry.old (OnOk result
        (FileBecomes inode_sector sectors.old sectors.new (view log.old) (view log.new) entry.old
        entry.new (written_bytes (bytes_of (view log.old) entry.old) offset bytes.now)
        × LosesNoSector sectors.old sectors.new (view log.old) (view log.new) entry.old
        entry.new)) }
    ensures entry { 0 < length bytes.now → OnOk result (EntryBecomes inode_sector
        (max entry.old.size (offset + length bytes.now)) (view log.new) entry.old entry.new) }
    ensures nothing { length bytes.now ≡ 0 → (log.new ≡ log.old) × (sectors.new ≡ sectors.old)
        × (entry.new ≡ entry.old) }
    ensures steps { StagesAtMost 39 log.old log.new sectors.old sectors.new (is_err result) }
    ensures refused { OnErr result ((OnlyReads log.old log.new) × (entry.new ≡ entry.old)
        × (sectors.new ≡ sectors.old)) }
    ensures idle { has_failed log.old ≡ true → (log.new ≡ log.old) × IsErr result }
{
    if log.failed() {
        return Err(DeviceFault);
    }
    if bytes.is_empty() {
        return Ok(());
    }
    write_some(log, sectors, inode_sector, entry, offset, bytes)
}

/// Writes some bytes.
fn write_some<D: Device>(
    log: &mut Log<D>,
    sectors: &mut Alloc,
    inode_sector: u32,
    entry: &mut Entry,
    offset: u32,
    bytes: &Source<'_>,
) -> Result<(), DeviceFault>
    requires can { CanChange 39 inode_sector log.old sectors.old entry.old }
    requires working { has_failed log.old ≡ false }
    requires small { offset + length bytes.now ≤ LARGEST_SIZE }
    requires few { length bytes.now ≤ PIECE }
    requires some { 0 < length bytes.now }
    ensures done { IfSound log.old sectors.old entry.old
        (need_of (max entry.old.size (offset + length bytes.now)) ≤ free_of sectors.old + used_of
        (view log.old) entry.old → OnOk result
        (WriteLeaves inode_sector sectors.old sectors.new (view log.old) (view log.new) entry.old
        entry.new offset bytes.now)) }
    ensures entry { OnOk result (EntryBecomes inode_sector
        (max entry.old.size (offset + length bytes.now)) (view log.new) entry.old entry.new) }
    ensures widths { OnOk result (HasWidths entry.new) }
    ensures steps { StagesAtMost 39 log.old log.new sectors.old sectors.new (is_err result) }
    ensures refused { OnErr result ((OnlyReads log.old log.new) × (entry.new ≡ entry.old)
        × (sectors.new ≡ sectors.old)) }
{
    let end = offset + bytes.len() as u32;
    let first = offset / 512;
    let last = (end - 1) / 512;
    let mut all = load_pointer_sectors(log, sectors, entry, first, last)?;
    let (first_image, last_image) = read_edges(log, sectors, entry, &all, offset, end)?;
    let piece = Piece {
        offset: offset as usize,
        first: first_image,
        last: last_image,
    };
    entry.size = entry.size.max(end);
    write_blocks(log, sectors, entry, &mut all, &piece, bytes, first, last);
    log.stage(inode_sector, &write_entry(entry));
    Ok(())
}

/// Reads the first and the last data block that bytes from an offset up to an end touch, unless
/// they will be written whole. One block is read once.
fn read_edges<D: Device>(
    log: &mut Log<D>,
    sectors: &Alloc,
    entry: &Entry,
    all: &PointerSectors,
    offset: u32,
    end: u32,
) -> Result<(Sector, Sector), DeviceFault>
    requires some { offset < end }
    requires few { end ≤ offset + PIECE }
    requires small { end ≤ LARGEST_SIZE }
    requires there { end_of sectors.now ≤ log_sectors log.old }
    requires working { has_failed log.old ≡ false }
    ensures first { D.honest (device_of log.old)
        → NamesTaken (taken_of sectors.now) (view log.old) entry.now
        → MirrorsAll (view log.old) entry.now all.now (offset / 512) ((end - 1) / 512)
        → (offset ≤ 512 * (offset / 512) → 512 * (offset / 512) + 512 ≤ end → ⊥)
        → IfOk result (λ images. images.0
        ≡ block_bytes (view log.old) (named (view log.old) entry.now (data_block (offset / 512)))) }
    ensures last { D.honest (device_of log.old) → NamesTaken (taken_of sectors.now) (view log.old)
        entry.now → MirrorsAll (view log.old) entry.now all.now (offset / 512) ((end - 1) / 512)
        → (offset ≤ 512 * ((end - 1) / 512) → 512 * ((end - 1) / 512) + 512 ≤ end → ⊥)
        → IfOk result (λ images. images.1 ≡ block_bytes (view log.old)
        (named (view log.old) entry.now (data_block ((end - 1) / 512)))) }
    ensures reads { OnlyReads log.old log.new }
    ensures failed { has_failed log.new ≡ is_err result }
{
    let first = offset / 512;
    let last = (end - 1) / 512;
    let first_image = read_edge(log, sectors, entry, all, offset, end, first)?;
    if first == last {
        return Ok((first_image, first_image));
    }
    let last_image = read_edge(log, sectors, entry, all, offset, end, last)?;
    Ok((first_image, last_image))
}

/// Reads a data block that bytes from an offset up to an end touch, unless it will be written
/// whole.
fn read_edge<D: Device>(
    log: &mut Log<D>,
    sectors: &Alloc,
    entry: &Entry,
    all: &PointerSectors,
    offset: u32,
    end: u32,
    j: u32,
) -> Result<Sector, DeviceFault>
    requires place { j < MOST_BLOCKS }
    requires from { offset / 512 ≤ j }
    requires near { j ≤ offset / 512 + NUMBERS }
    requires there { end_of sectors.now ≤ log_sectors log.old }
    requires working { has_failed log.old ≡ false }
    ensures bytes { (last : ℕ) → j ≤ last → D.honest (device_of log.old)
        → NamesTaken (taken_of sectors.now) (view log.old) entry.now
        → MirrorsAll (view log.old) entry.now all.now (offset / 512) last
        → (offset ≤ 512 * j → 512 * j + 512 ≤ end → ⊥)
        → IfOk result (λ image. image
        ≡ block_bytes (view log.old) (named (view log.old) entry.now (data_block j))) }
    ensures reads { OnlyReads log.old log.new }
    ensures failed { has_failed log.new ≡ is_err result }
{
    if offset <= 512 * j && 512 * j + 512 <= end {
        return Ok([0; 512]);
    }
    let n = sector_by(sectors, entry, all, offset / 512, j);
    read_taken(log, sectors, n)
}

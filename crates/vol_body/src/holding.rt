//! The pointer sectors that a call holds, so that it reads each of them once.

ghost use Rattle.std.specs.Prelude.{◌≡◌, ◌≢◌, ◌≤◌, ◌<◌, ◌+◌, ◌*◌, ◌-◌, ◌/◌, ◌%◌, ℕ, true, false, IfOk, OnOk, is_err};
ghost use Rattle.vol_log.specs.Log.{view, log_sectors, has_failed, device_of};
ghost use Rattle.vol_alloc.specs.Alloc.{end_of, taken_of};
ghost use Rattle.vol_body.specs.Body.{NamesTaken, data_block, double_indirect_block, named, block_bytes};
ghost use Rattle.vol_log.specs.Reading.{OnlyReads};
ghost use Rattle.vol_sector.specs.Disk.{Image};
ghost use Rattle.vol_inode.specs.declared.pointers.TheConstants.{LISTED, MOST_BLOCKS, SERVED};
ghost use Rattle.vol_body.specs.internal.Writing.{Mirrors, segment_of};
ghost use Rattle.vol_body.specs.internal.Holding.{IsHeld, KnowsHeld};

use crate::locate::{read_taken, taken_or_zero};
use crate::pointer_sectors::{
    PointerSector, double_of, listed_sector, load_double, load_segment, load_triple,
};
use vol_alloc::Alloc;
use vol_inode::{DIRECT, Entry, NUMBERS};
use vol_log::Log;
use vol_sector::{Device, DeviceFault, Sector};

/// The pointer sectors that are held.
#[derive(Drop)]
pub struct HeldPointers {
    /// The triple-indirect block.
    pub triple: PointerSector,
    /// The double-indirect block that names `above`, or the first one where the entry names `above` itself.
    pub top: PointerSector,
    /// Which data blocks `above` lists: those from `DIRECT + NUMBERS * group` on.
    pub group: u32,
    /// The one that lists these.
    pub above: PointerSector,
}

/// Reads the pointer sectors by which the data block `first` is found, in a call that goes up to the
/// data block `last`.
pub fn hold<D: Device>(
    log: &mut Log<D>,
    sectors: &Alloc,
    entry: &Entry,
    first: u32,
    last: u32,
) -> Result<HeldPointers, DeviceFault>
    requires small { last < MOST_BLOCKS }
    requires there { end_of sectors.now ≤ log_sectors log.old }
    requires working { has_failed log.old ≡ false }
    ensures held { D.honest (device_of log.old)
        → NamesTaken (taken_of sectors.now) (view log.old) entry.now
        → IfOk result (λ held. IsHeld (view log.old) entry.now held last) }
    ensures group { IfOk result (λ held. held.group ≡ segment_of first) }
    ensures known { IfOk result (λ held. KnowsHeld sectors.now held) }
    ensures reads { OnlyReads log.old log.new }
    ensures failed { has_failed log.new ≡ is_err result }
{
    let group = first.saturating_sub(DIRECT) / NUMBERS;
    let triple = load_triple(log, sectors, entry, last)?;
    let top = load_double(log, sectors, entry, &triple, double_of(group), last)?;
    let above = load_segment(log, sectors, entry, &top, group, last)?;
    Ok(HeldPointers {
        triple,
        top,
        group,
        above,
    })
}

/// The sector of a data block, or 0 where it was never written, where the pointer sector that lists it
/// is held.
pub fn held_sector(sectors: &Alloc, entry: &Entry, held: &HeldPointers, j: u32) -> u32
    requires place { j < MOST_BLOCKS }
    requires group { held.now.group ≡ segment_of j }
    ensures number { (content : Image) (last : ℕ) → j ≤ last
        → NamesTaken (taken_of sectors.now) content entry.now
        → IsHeld content entry.now held.now last
        → result ≡ named content entry.now (data_block j) }
    ensures taken { result ≢ 0 → taken_of sectors.now result ≡ true }
{
    if j < DIRECT {
        return taken_or_zero(sectors, entry.pointers[j as usize]);
    }
    listed_sector(sectors, &held.above, (j - DIRECT) % NUMBERS)
}

/// The bytes of a sector, which is read unless it is the pointer sector that is held.
pub fn read_unless_held<D: Device>(
    log: &mut Log<D>,
    held: &PointerSector,
    n: u32,
) -> Result<Sector, DeviceFault>
    requires some { n ≢ 0 }
    requires there { n < log_sectors log.old }
    requires working { has_failed log.old ≡ false }
    ensures bytes { D.honest (device_of log.old)
        → held.now.image ≡ block_bytes (view log.old) held.now.number
        → IfOk result (λ image. image ≡ view log.old n) }
    ensures reads { OnlyReads log.old log.new }
    ensures failed { has_failed log.new ≡ is_err result }
{
    if n == held.number {
        return Ok(held.image);
    }
    log.read(n)
}

/// Reads a data block, and before it the pointer sector that lists it, where that isn't held.
pub fn read_held<D: Device>(
    log: &mut Log<D>,
    sectors: &Alloc,
    entry: &Entry,
    held: &mut HeldPointers,
    j: u32,
    last: u32,
) -> Result<Sector, DeviceFault>
    requires place { j ≤ last }
    requires small { last < MOST_BLOCKS }
    requires there { end_of sectors.now ≤ log_sectors log.old }
    requires working { has_failed log.old ≡ false }
    ensures bytes { D.honest (device_of log.old)
        → NamesTaken (taken_of sectors.now) (view log.old) entry.now
        → IsHeld (view log.old) entry.now held.old last
        → IfOk result (λ image. image
        ≡ block_bytes (view log.old) (named (view log.old) entry.now (data_block j))) }
    ensures held { D.honest (device_of log.old)
        → NamesTaken (taken_of sectors.now) (view log.old) entry.now
        → IsHeld (view log.old) entry.now held.old last
        → OnOk result (IsHeld (view log.old) entry.now held.new last) }
    ensures reads { OnlyReads log.old log.new }
    ensures failed { has_failed log.new ≡ is_err result }
{
    let group = j.saturating_sub(DIRECT) / NUMBERS;
    hold_group(log, sectors, entry, held, group, last)?;
    let n = held_sector(sectors, entry, held, j);
    read_taken(log, sectors, n)
}

/// Reads the pointer sector that lists the data blocks of a group, where it isn't held.
fn hold_group<D: Device>(
    log: &mut Log<D>,
    sectors: &Alloc,
    entry: &Entry,
    held: &mut HeldPointers,
    group: u32,
    last: u32,
) -> Result<(), DeviceFault>
    requires small { last < MOST_BLOCKS }
    requires there { end_of sectors.now ≤ log_sectors log.old }
    requires working { has_failed log.old ≡ false }
    ensures held { D.honest (device_of log.old)
        → NamesTaken (taken_of sectors.now) (view log.old) entry.now
        → IsHeld (view log.old) entry.now held.old last
        → OnOk result (IsHeld (view log.old) entry.now held.new last) }
    ensures group { OnOk result (held.new.group ≡ group) }
    ensures reads { OnlyReads log.old log.new }
    ensures failed { has_failed log.new ≡ is_err result }
{
    if group == held.group {
        return Ok(());
    }
    hold_double(log, sectors, entry, held, double_of(group), last)?;
    held.above = load_segment(log, sectors, entry, &held.top, group, last)?;
    held.group = group;
    Ok(())
}

/// Reads a double-indirect block, where it isn't held.
fn hold_double<D: Device>(
    log: &mut Log<D>,
    sectors: &Alloc,
    entry: &Entry,
    held: &mut HeldPointers,
    d: u32,
    last: u32,
) -> Result<(), DeviceFault>
    requires small { last < MOST_BLOCKS }
    requires there { end_of sectors.now ≤ log_sectors log.old }
    requires working { has_failed log.old ≡ false }
    ensures top { D.honest (device_of log.old)
        → NamesTaken (taken_of sectors.now) (view log.old) entry.now
        → IsHeld (view log.old) entry.now held.old last → LISTED + SERVED * d ≤ last
        → OnOk result (Mirrors (view log.old) entry.now (double_indirect_block d)
        held.new.top.number held.new.top.image) }
    ensures rest { held.new ≡ record held.old { top = held.new.top } }
    ensures reads { OnlyReads log.old log.new }
    ensures failed { has_failed log.new ≡ is_err result }
{
    if d != double_of(held.group) {
        held.top = load_double(log, sectors, entry, &held.triple, d, last)?;
    }
    Ok(())
}

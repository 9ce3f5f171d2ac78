//! The sectors of which a shorter file keeps only a beginning.

ghost use Rattle.std.specs.Prelude.{◌≡◌, ◌≢◌, ◌≤◌, ◌<◌, ◌+◌, ◌-◌, ◌*◌, ◌/◌, true, false, IfOk, is_err};
ghost use Rattle.vol_log.specs.Log.{view, log_sectors, room_of, has_failed, device_of};
ghost use Rattle.vol_alloc.specs.Alloc.{first_of, end_of, taken_of};
ghost use Rattle.vol_sector.specs.Disk.{Image};
ghost use Rattle.vol_inode.specs.declared.entry.Entry.{Entry};
ghost use Rattle.vol_body.specs.Body.{NamesTaken, triple_indirect_block, named, block_bytes};
ghost use Rattle.vol_log.specs.Reading.{OnlyReads};
ghost use Rattle.vol_body.specs.internal.Truncated.{kept_bytes, zeroed_from, IsCut, with_cut, cut_data_block, cut_segment, cut_double};
ghost use Rattle.vol_body.specs.internal.Truncated.{IsTruncation, AreWithin, with_truncation};
ghost use Rattle.vol_body.specs.internal.Writing.{segment_of};
ghost use Rattle.vol_body.specs.internal.Holding.{IsHeld, KnowsHeld};
ghost use Rattle.vol_body.specs.declared.locate.TheConstants.{LAST};
ghost use Rattle.vol_log.specs.declared.layout.TheConstants.{FIRST_AFTER_LOG};
ghost use Rattle.vol_inode.specs.declared.version.TheConstants.{LARGEST_SIZE};

use crate::holding::{HeldPointers, held_sector};
use crate::locate::read_taken;
use crate::pointer_sectors::double_of;
use vol_alloc::Alloc;
use vol_inode::{DIRECT, Entry, LISTED, NUMBERS, SERVED, TWICE_LISTED};
use vol_log::Log;
use vol_sector::{Device, DeviceFault, Sector};

/// What is to be written for a sector of which a beginning is kept. Sector 0 stands for nothing.
#[derive(Drop)]
pub struct CutSector {
    pub sector: u32,
    pub image: Sector,
}

/// What is to be written for a file that is made shorter.
#[derive(Drop)]
pub struct Truncation {
    /// For the data block that the new size ends in.
    pub data_block: CutSector,
    /// For the pointer sector that lists this data block.
    pub above: CutSector,
    /// For the double-indirect block that names that one.
    pub double: CutSector,
    /// For the triple-indirect block.
    pub triple: CutSector,
}

/// The bytes before a place, and zeros from it on.
fn cut_at(image: &Sector, kept: usize) -> Sector
    requires { kept ≤ 512 }
    ensures { result ≡ zeroed_from kept image.now }
{
    let mut cut = [0; 512];
    cut[..kept].copy_from_slice(&image[..kept]);
    cut
}

/// What is to be written for a sector of which this many bytes are kept: nothing where it is sector
/// 0, is kept whole or not at all, or has zeros after them already.
fn cut_of(number: u32, old: &Sector, kept: u32) -> CutSector
    requires within { kept ≤ 512 }
    ensures cut { (content : Image) → old.now ≡ block_bytes content number
        → IsCut content number kept result }
    ensures sector { result.sector ≢ 0 → result.sector ≡ number }
{
    if number == 0 || kept == 0 || kept == 512 {
        return CutSector {
            sector: 0,
            image: [0; 512],
        };
    }
    let image = cut_at(old, kept as usize);
    let sector = if image == *old { 0 } else { number };
    CutSector { sector, image }
}

/// What is to be written for the data block that this size ends in. It is read only where a part of it
/// is kept.
fn cut_of_data_block<D: Device>(
    log: &mut Log<D>,
    sectors: &Alloc,
    entry: &Entry,
    held: &HeldPointers,
    size: u32,
) -> Result<CutSector, DeviceFault>
    requires there { end_of sectors.now ≤ log_sectors log.old }
    requires working { has_failed log.old ≡ false }
    requires small { size < LARGEST_SIZE }
    requires group { held.now.group ≡ segment_of (size / 512) }
    ensures cut { D.honest (device_of log.old)
        → NamesTaken (taken_of sectors.now) (view log.old) entry.now
        → IsHeld (view log.old) entry.now held.now LAST
        → IfOk result (IsCut (view log.old) (named (view log.old) entry.now (cut_data_block size))
        (kept_bytes size (cut_data_block size))) }
    ensures taken { IfOk result (λ cut. cut.sector ≢ 0
        → taken_of sectors.now cut.sector ≡ true) }
    ensures reads { OnlyReads log.old log.new }
    ensures failed { has_failed log.new ≡ is_err result }
{
    let kept = size % 512;
    let sector = held_sector(sectors, entry, held, size / 512);
    let n = if kept == 0 { 0 } else { sector };
    let old = read_taken(log, sectors, n)?;
    Ok(cut_of(n, &old, kept))
}

/// What is to be written for the pointer sector that lists the data block that this size ends in.
fn cut_of_above(held: &HeldPointers, size: u32) -> CutSector
    requires small { size < LARGEST_SIZE }
    requires group { held.now.group ≡ segment_of (size / 512) }
    ensures cut { (content : Image) (e : Entry) → IsHeld content e held.now LAST
        → IsCut content (named content e (cut_segment size)) (kept_bytes size (cut_segment size))
        result }
    ensures sector { result.sector ≢ 0 → result.sector ≡ held.now.above.number }
{
    let listed_before = DIRECT + NUMBERS * held.group;
    let kept = size
        .div_ceil(512)
        .saturating_sub(listed_before)
        .min(NUMBERS);
    cut_of(held.above.number, &held.above.image, 4 * kept)
}

/// What is to be written for the double-indirect block that names that pointer sector.
fn cut_of_double(held: &HeldPointers, size: u32) -> CutSector
    requires small { size < LARGEST_SIZE }
    requires group { held.now.group ≡ segment_of (size / 512) }
    ensures cut { (content : Image) (e : Entry) → IsHeld content e held.now LAST
        → IsCut content (named content e (cut_double size)) (kept_bytes size (cut_double size))
        result }
    ensures sector { result.sector ≢ 0 → result.sector ≡ held.now.top.number }
{
    let served_before = LISTED + SERVED * double_of(held.group);
    let count = size.div_ceil(512).saturating_sub(served_before);
    let kept = count.div_ceil(NUMBERS).min(NUMBERS);
    cut_of(held.top.number, &held.top.image, 4 * kept)
}

/// What is to be written for the triple-indirect block of a file of this size.
fn cut_of_triple(held: &HeldPointers, size: u32) -> CutSector
    ensures cut { (content : Image) (e : Entry) → IsHeld content e held.now LAST
        → IsCut content (named content e triple_indirect_block)
        (kept_bytes size triple_indirect_block) result }
    ensures sector { result.sector ≢ 0 → result.sector ≡ held.now.triple.number }
{
    let count = size.div_ceil(512).saturating_sub(TWICE_LISTED);
    let kept = count.div_ceil(SERVED).min(NUMBERS);
    cut_of(held.triple.number, &held.triple.image, 4 * kept)
}

/// Stages what is to be written for a sector, if anything is.
fn stage_cut<D: Device>(log: &mut Log<D>, cut: &CutSector)
    requires after_log { cut.now.sector ≢ 0 → FIRST_AFTER_LOG ≤ cut.now.sector }
    requires there { cut.now.sector ≢ 0 → cut.now.sector < log_sectors log.old }
    requires room { 0 < room_of log.old }
    requires working { has_failed log.old ≡ false }
    ensures view { view log.new ≡ with_cut cut.now (view log.old) }
    ensures room { room_of log.old ≤ room_of log.new + 1 }
    ensures device { device_of log.new ≡ device_of log.old }
    ensures failed { has_failed log.new ≡ false }
    ensures sectors { log_sectors log.new ≡ log_sectors log.old }
{
    if cut.sector != 0 {
        log.stage(cut.sector, &cut.image);
    }
}

/// What is to be written where the file keeps this many bytes. At most the last data block that it
/// keeps is read.
pub fn read_truncation<D: Device>(
    log: &mut Log<D>,
    sectors: &Alloc,
    entry: &Entry,
    held: &HeldPointers,
    size: u32,
) -> Result<Truncation, DeviceFault>
    requires there { end_of sectors.now ≤ log_sectors log.old }
    requires working { has_failed log.old ≡ false }
    requires small { size < LARGEST_SIZE }
    requires group { held.now.group ≡ segment_of (size / 512) }
    requires known { KnowsHeld sectors.now held.now }
    ensures truncation { D.honest (device_of log.old)
        → NamesTaken (taken_of sectors.now) (view log.old) entry.now
        → IsHeld (view log.old) entry.now held.now LAST
        → IfOk result (IsTruncation (view log.old) entry.now size) }
    ensures within { IfOk result (AreWithin (first_of sectors.now) (end_of sectors.now)) }
    ensures reads { OnlyReads log.old log.new }
    ensures failed { has_failed log.new ≡ is_err result }
{
    let data_block = cut_of_data_block(log, sectors, entry, held, size)?;
    let above = cut_of_above(held, size);
    let double = cut_of_double(held, size);
    let triple = cut_of_triple(held, size);
    Ok(Truncation {
        data_block,
        above,
        double,
        triple,
    })
}

/// Stages what is to be written, in four places at most.
pub fn stage_truncation<D: Device>(log: &mut Log<D>, truncation: &Truncation)
    requires there { AreWithin FIRST_AFTER_LOG (log_sectors log.old) truncation.now }
    requires room { 4 ≤ room_of log.old }
    requires working { has_failed log.old ≡ false }
    ensures view { view log.new ≡ with_truncation truncation.now (view log.old) }
    ensures room { room_of log.old ≤ room_of log.new + 4 }
    ensures device { device_of log.new ≡ device_of log.old }
    ensures failed { has_failed log.new ≡ false }
    ensures sectors { log_sectors log.new ≡ log_sectors log.old }
{
    stage_cut(log, &truncation.data_block);
    stage_cut(log, &truncation.above);
    stage_cut(log, &truncation.double);
    stage_cut(log, &truncation.triple);
}

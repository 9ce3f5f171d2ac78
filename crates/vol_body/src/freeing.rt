//! Freeing the sectors that a shorter file no longer names.

ghost use Rattle.std.specs.Prelude.{◌≡◌, ◌≢◌, ◌≤◌, ◌<◌, ◌+◌, ◌-◌, ◌*◌, ℕ, false, true, OnOk, is_err, if◌then◌else◌};
ghost use Rattle.std.specs.Prelude.{drop, nat_lt, slice_index};
ghost use Rattle.byteorder.specs.Endian.{little_number};
ghost use Rattle.vol_log.specs.Log.{view, log_sectors, has_failed, device_of};
ghost use Rattle.vol_alloc.specs.Alloc.{first_of, end_of, taken_of};
ghost use Rattle.vol_body.specs.Body.{NamesTaken, number_in, block_bytes};
ghost use Rattle.vol_log.specs.Reading.{OnlyReads};
ghost use Rattle.vol_body.specs.internal.Truncated.{Frees, IsAmong, IsFreedWithBlock, IsFreedWithLater, IsFreed};
ghost use Rattle.vol_body.specs.internal.Truncated.{IsFreedWithDouble, IsFreedWithDoubles, IsFreedWithTriple};
ghost use Rattle.vol_body.specs.internal.Holding.{IsHeld};
ghost use Rattle.vol_body.specs.declared.locate.TheConstants.{LAST};
ghost use Rattle.vol_inode.specs.declared.pointers.TheConstants.{INNER_BLOCKS, MOST_BLOCKS};

use crate::holding::{HeldPointers, read_unless_held};
use crate::locate::{Numbers, number_at, taken_or_zero};
use crate::pointer_sectors::PointerSector;
use vol_alloc::Alloc;
use vol_inode::{DIRECT, DOUBLE_INDIRECT, Entry, INDIRECT, LISTED, NUMBERS, SERVED, TWICE_LISTED};
use vol_log::Log;
use vol_sector::{Device, DeviceFault, Sector};

/// Frees the sector if it is taken.
fn free_taken(sectors: &mut Alloc, n: u32)
    ensures frees { Frees (taken_of sectors.old) (taken_of sectors.new) (λ k. k ≡ n) }
    ensures range { (first_of sectors.new ≡ first_of sectors.old)
        × (end_of sectors.new ≡ end_of sectors.old) }
{
    if sectors.is_taken(n) {
        sectors.give(n);
    }
}

/// Frees the sectors that the entry itself names for data blocks from one on.
fn free_direct(sectors: &mut Alloc, entry: &Entry, from: u32)
    ensures frees { Frees (taken_of sectors.old) (taken_of sectors.new)
        (IsAmong (slice_index entry.now.pointers) from DIRECT) }
    ensures range { (first_of sectors.new ≡ first_of sectors.old)
        × (end_of sectors.new ≡ end_of sectors.old) }
{
    for j in from.min(DIRECT)..DIRECT {
        free_taken(sectors, entry.pointers[j as usize]);
    }
}

/// Frees the sectors whose numbers a pointer sector has from one on.
fn free_listed(sectors: &mut Alloc, image: &Sector, from: u32)
    ensures frees { Frees (taken_of sectors.old) (taken_of sectors.new)
        (IsAmong (λ i. little_number 4 (drop (4 * i) image.now)) from NUMBERS) }
    ensures range { (first_of sectors.new ≡ first_of sectors.old)
        × (end_of sectors.new ≡ end_of sectors.old) }
{
    for i in from.min(NUMBERS)..NUMBERS {
        free_taken(sectors, number_at(image, i));
    }
}

/// Frees the sectors that a pointer sector names from one on, and the block itself where it keeps no
/// number. It is read unless it is the one that is held.
fn free_indirect_block<D: Device>(
    log: &mut Log<D>,
    sectors: &mut Alloc,
    held: &PointerSector,
    indirect_block: u32,
    from: u32,
) -> Result<(), DeviceFault>
    requires there { indirect_block ≢ 0 → indirect_block < log_sectors log.old }
    requires working { has_failed log.old ≡ false }
    requires data { 0 < first_of sectors.old }
    ensures frees { D.honest (device_of log.old)
        → held.now.image ≡ block_bytes (view log.old) held.now.number
        → OnOk result (Frees (taken_of sectors.old) (taken_of sectors.new)
        (IsFreedWithBlock (view log.old) indirect_block from)) }
    ensures range { (first_of sectors.new ≡ first_of sectors.old)
        × (end_of sectors.new ≡ end_of sectors.old) }
    ensures reads { OnlyReads log.old log.new }
    ensures failed { has_failed log.new ≡ is_err result }
{
    if indirect_block == 0 {
        return Ok(());
    }
    if from >= NUMBERS {
        return Ok(());
    }
    let image = read_unless_held(log, held, indirect_block)?;
    free_listed(sectors, &image, from);
    if from == 0 {
        free_taken(sectors, indirect_block);
    }
    Ok(())
}

/// The number, if it is before the end, else 0. A device that isn't honest may give any.
fn number_before(n: u32, end: u32) -> u32
    ensures { result ≡ (if nat_lt n end then n else 0) }
{
    if n < end { n } else { 0 }
}

/// The numbers of a pointer sector, those before the end; the others are 0.
fn numbers_before(image: &Sector, end: u32) -> Numbers
    ensures { (i : ℕ) → i < NUMBERS → let m = little_number 4 (drop (4 * i) image.now) in
        slice_index result i ≡ (if nat_lt m end then m else 0) }
{
    let mut numbers = [0; NUMBERS as usize];
    for i in 0..NUMBERS {
        numbers[i as usize] = number_before(number_at(image, i), end);
    }
    numbers
}

/// Frees what the inner blocks name after the data blocks that are kept, and those of the inner blocks that
/// keep no number. Those of which something goes are read, but for the one that is held.
fn free_inner_blocks<D: Device>(
    log: &mut Log<D>,
    sectors: &mut Alloc,
    held: &PointerSector,
    inner_blocks: &Numbers,
    start: u32,
    count: u32,
) -> Result<(), DeviceFault>
    requires there { (i : ℕ) → i < NUMBERS → slice_index inner_blocks.now i ≢ 0
        → slice_index inner_blocks.now i < log_sectors log.old }
    requires working { has_failed log.old ≡ false }
    requires data { 0 < first_of sectors.old }
    requires place { start < MOST_BLOCKS }
    ensures frees { D.honest (device_of log.old)
        → held.now.image ≡ block_bytes (view log.old) held.now.number
        → OnOk result (Frees (taken_of sectors.old) (taken_of sectors.new)
        (IsFreedWithLater (view log.old) (slice_index inner_blocks.now) start count NUMBERS)) }
    ensures range { (first_of sectors.new ≡ first_of sectors.old)
        × (end_of sectors.new ≡ end_of sectors.old) }
    ensures reads { OnlyReads log.old log.new }
    ensures failed { has_failed log.new ≡ is_err result }
{
    for i in 0..NUMBERS {
        let from = count.saturating_sub(start + NUMBERS * i);
        free_indirect_block(log, sectors, held, inner_blocks[i as usize], from)?;
    }
    Ok(())
}

/// Frees what a double-indirect block, which serves data blocks from `start` on, names for those that the file
/// doesn't keep, and the block itself where it keeps no number. It and its inner blocks are read where
/// something goes, but for those that are held.
fn free_double_indirect_block<D: Device>(
    log: &mut Log<D>,
    sectors: &mut Alloc,
    held: &HeldPointers,
    double_indirect_block: u32,
    start: u32,
    count: u32,
) -> Result<(), DeviceFault>
    requires range { end_of sectors.old ≤ log_sectors log.old }
    requires there { double_indirect_block ≢ 0 → double_indirect_block < log_sectors log.old }
    requires working { has_failed log.old ≡ false }
    requires data { 0 < first_of sectors.old }
    requires place { start < MOST_BLOCKS }
    ensures frees { D.honest (device_of log.old)
        → held.now.top.image ≡ block_bytes (view log.old) held.now.top.number
        → held.now.above.image ≡ block_bytes (view log.old) held.now.above.number
        → ((i : ℕ) → i < NUMBERS → number_in (view log.old) double_indirect_block i ≢ 0
        → number_in (view log.old) double_indirect_block i < end_of sectors.old)
        → OnOk result (Frees (taken_of sectors.old) (taken_of sectors.new)
        (IsFreedWithDouble (view log.old) double_indirect_block start count)) }
    ensures range { (first_of sectors.new ≡ first_of sectors.old)
        × (end_of sectors.new ≡ end_of sectors.old) }
    ensures reads { OnlyReads log.old log.new }
    ensures failed { has_failed log.new ≡ is_err result }
{
    if double_indirect_block == 0 {
        return Ok(());
    }
    if start + SERVED <= count {
        return Ok(()); // all of it is kept
    }
    let image = read_unless_held(log, &held.top, double_indirect_block)?;
    let numbers = numbers_before(&image, sectors.end());
    free_inner_blocks(log, sectors, &held.above, &numbers, start, count)?;
    if count <= start {
        free_taken(sectors, double_indirect_block);
    }
    Ok(())
}

/// Frees what the double-indirect blocks after the first name for data blocks that the file doesn't keep, and
/// those of them that keep no number.
fn free_double_indirect_blocks<D: Device>(
    log: &mut Log<D>,
    sectors: &mut Alloc,
    held: &HeldPointers,
    double_indirect_blocks: &Numbers,
    count: u32,
) -> Result<(), DeviceFault>
    requires range { end_of sectors.old ≤ log_sectors log.old }
    requires there { (m : ℕ) → m < NUMBERS → slice_index double_indirect_blocks.now m ≢ 0
        → slice_index double_indirect_blocks.now m < log_sectors log.old }
    requires working { has_failed log.old ≡ false }
    requires data { 0 < first_of sectors.old }
    ensures frees { D.honest (device_of log.old) → held.now.top.image ≡ block_bytes (view log.old)
        held.now.top.number → held.now.above.image ≡ block_bytes (view log.old)
        held.now.above.number → ((m i : ℕ) → m < NUMBERS → i < NUMBERS
        → number_in (view log.old) (slice_index double_indirect_blocks.now m) i ≢ 0
        → number_in (view log.old) (slice_index double_indirect_blocks.now m) i < end_of
        sectors.old) → OnOk result (Frees (taken_of sectors.old) (taken_of sectors.new)
        (IsFreedWithDoubles (view log.old) (slice_index double_indirect_blocks.now) count
        NUMBERS)) }
    ensures range { (first_of sectors.new ≡ first_of sectors.old)
        × (end_of sectors.new ≡ end_of sectors.old) }
    ensures reads { OnlyReads log.old log.new }
    ensures failed { has_failed log.new ≡ is_err result }
{
    for m in 0..NUMBERS {
        let start = TWICE_LISTED + SERVED * m;
        let number = double_indirect_blocks[m as usize];
        free_double_indirect_block(log, sectors, held, number, start, count)?;
    }
    Ok(())
}

/// Frees what the triple-indirect block, which is held, names for data blocks that the file doesn't keep, and
/// the block itself where it keeps no number.
fn free_triple_indirect_block<D: Device>(
    log: &mut Log<D>,
    sectors: &mut Alloc,
    held: &HeldPointers,
    count: u32,
) -> Result<(), DeviceFault>
    requires range { end_of sectors.old ≤ log_sectors log.old }
    requires working { has_failed log.old ≡ false }
    requires data { 0 < first_of sectors.old }
    ensures frees { D.honest (device_of log.old)
        → held.now.triple.image ≡ block_bytes (view log.old) held.now.triple.number
        → held.now.top.image ≡ block_bytes (view log.old) held.now.top.number
        → held.now.above.image ≡ block_bytes (view log.old) held.now.above.number
        → ((m : ℕ) → m < NUMBERS → number_in (view log.old) held.now.triple.number m ≢ 0
        → number_in (view log.old) held.now.triple.number m < end_of sectors.old)
        → ((m i : ℕ) → m < NUMBERS → i < NUMBERS
        → number_in (view log.old) (number_in (view log.old) held.now.triple.number m) i ≢ 0
        → number_in (view log.old) (number_in (view log.old) held.now.triple.number m) i
        < end_of sectors.old)
        → OnOk result (Frees (taken_of sectors.old) (taken_of sectors.new)
        (IsFreedWithTriple (view log.old) held.now.triple.number count)) }
    ensures range { (first_of sectors.new ≡ first_of sectors.old)
        × (end_of sectors.new ≡ end_of sectors.old) }
    ensures reads { OnlyReads log.old log.new }
    ensures failed { has_failed log.new ≡ is_err result }
{
    if held.triple.number == 0 {
        return Ok(());
    }
    let numbers = numbers_before(&held.triple.image, sectors.end());
    free_double_indirect_blocks(log, sectors, held, &numbers, count)?;
    if count <= TWICE_LISTED {
        free_taken(sectors, held.triple.number);
    }
    Ok(())
}

/// Frees each sector that the file names only for data blocks from `count` on.
pub fn free_unkept<D: Device>(
    log: &mut Log<D>,
    sectors: &mut Alloc,
    entry: &Entry,
    held: &HeldPointers,
    count: u32,
) -> Result<(), DeviceFault>
    requires there { end_of sectors.old ≤ log_sectors log.old }
    requires working { has_failed log.old ≡ false }
    requires data { 0 < first_of sectors.old }
    requires group { held.now.group < INNER_BLOCKS + 1 }
    ensures frees { D.honest (device_of log.old)
        → NamesTaken (taken_of sectors.old) (view log.old) entry.now
        → IsHeld (view log.old) entry.now held.now LAST
        → OnOk result (Frees (taken_of sectors.old) (taken_of sectors.new)
        (IsFreed (view log.old) entry.now count)) }
    ensures range { (first_of sectors.new ≡ first_of sectors.old)
        × (end_of sectors.new ≡ end_of sectors.old) }
    ensures reads { OnlyReads log.old log.new }
    ensures failed { has_failed log.new ≡ is_err result }
{
    let indirect_block = taken_or_zero(sectors, entry.pointers[INDIRECT as usize]);
    let double = taken_or_zero(sectors, entry.pointers[DOUBLE_INDIRECT as usize]);
    free_triple_indirect_block(log, sectors, held, count)?;
    free_double_indirect_block(log, sectors, held, double, LISTED, count)?;
    let from = count.saturating_sub(DIRECT);
    free_indirect_block(log, sectors, &held.above, indirect_block, from)?;
    free_direct(sectors, entry, count);
    Ok(())
}

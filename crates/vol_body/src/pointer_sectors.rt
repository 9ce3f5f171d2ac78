//! The pointer sectors of a file, in memory.

ghost use Rattle.std.specs.Prelude.{◌≡◌, ◌≢◌, ◌≤◌, ◌<◌, ◌+◌, ◌*◌, ℕ, true, false, drop, IfOk, is_err};
ghost use Rattle.byteorder.specs.Endian.{little_number};
ghost use Rattle.vol_log.specs.Log.{view, log_sectors, has_failed, device_of};
ghost use Rattle.vol_alloc.specs.Alloc.{end_of, taken_of};
ghost use Rattle.vol_inode.specs.declared.entry.Entry.{Entry};
ghost use Rattle.vol_body.specs.Body.{BlockPosition, NamesTaken, data_block, double_indirect_block, triple_indirect_block};
ghost use Rattle.vol_body.specs.Body.{block_bytes, named};
ghost use Rattle.vol_log.specs.Reading.{OnlyReads};
ghost use Rattle.vol_sector.specs.Disk.{Image};
ghost use Rattle.vol_inode.specs.declared.pointers.TheConstants.{DIRECT, INNER_BLOCKS, LISTED, MOST_BLOCKS, NUMBERS, SERVED, TWICE_LISTED};
ghost use Rattle.vol_body.specs.internal.Writing.{Mirrors, MirrorsAll, KnowsAll, IsKnown, ListedAt, segment, double_of};

use crate::locate::{number_at, read_taken, taken_or_zero};
use vol_alloc::Alloc;
use vol_inode::{
    DIRECT, DOUBLE_INDIRECT, Entry, INDIRECT, LISTED, NUMBERS, SERVED, TRIPLE_INDIRECT,
    TWICE_LISTED, put_number,
};
use vol_log::Log;
use vol_sector::{Device, DeviceFault, Sector};

/// A pointer sector: its number, and its bytes. Where the file has none the number is 0, and the
/// bytes are zeros.
#[derive(Drop)]
pub struct PointerSector {
    pub number: u32,
    pub image: Sector,
}

/// The pointer sectors that a write uses.
#[derive(Drop)]
pub struct PointerSectors {
    /// The triple-indirect block.
    pub triple: PointerSector,
    /// The double-indirect block that names `early`, or the first one where the entry names it itself.
    pub double: PointerSector,
    /// The one that names `late`, where that is another one.
    pub next_double: PointerSector,
    /// The one that lists the first data block past the direct ones that is written.
    pub early: PointerSector,
    /// The one that lists the data blocks after those of `early`.
    pub late: PointerSector,
}

/// The pointer sector with another `i`-th number.
pub fn with_number(image: &Sector, i: u32, n: u32) -> Sector
    requires { i < NUMBERS }
    ensures one { little_number 4 (drop (4 * i) result) ≡ n }
    ensures rest { (k : ℕ) → k < NUMBERS → k ≢ i
        → little_number 4 (drop (4 * k) result) ≡ little_number 4 (drop (4 * k) image.now) }
{
    let mut image = *image;
    put_number(&mut image, 4 * i as usize, n);
    image
}

/// Reads the pointer sectors that a write of the data blocks from `first` to `last` uses.
pub fn load_pointer_sectors<D: Device>(
    log: &mut Log<D>,
    sectors: &Alloc,
    entry: &Entry,
    first: u32,
    last: u32,
) -> Result<PointerSectors, DeviceFault>
    requires some { first ≤ last }
    requires small { last < MOST_BLOCKS }
    requires there { end_of sectors.now ≤ log_sectors log.old }
    requires working { has_failed log.old ≡ false }
    ensures right { D.honest (device_of log.old)
        → NamesTaken (taken_of sectors.now) (view log.old) entry.now
        → IfOk result (λ all. MirrorsAll (view log.old) entry.now all first last) }
    ensures known { IfOk result (λ all. KnowsAll sectors.now all) }
    ensures reads { OnlyReads log.old log.new }
    ensures failed { has_failed log.new ≡ is_err result }
{
    let group = first.saturating_sub(DIRECT) / NUMBERS;
    let triple = load_triple(log, sectors, entry, last)?;
    let double = load_double(log, sectors, entry, &triple, double_of(group), last)?;
    let early = load_segment(log, sectors, entry, &double, group, last)?;
    let (next_double, late) = load_late(log, sectors, entry, &triple, &double, group, last)?;
    Ok(PointerSectors {
        triple,
        double,
        next_double,
        early,
        late,
    })
}

/// Which double-indirect block names the pointer sector of a group: the first one where the entry names it itself.
pub fn double_of(group: u32) -> u32
    ensures { result ≡ double_of group }
{
    group.saturating_sub(1) / NUMBERS
}

/// Reads the pointer sector after that of a group, and the double-indirect block that names it, where that is another
/// one than names that of the group.
fn load_late<D: Device>(
    log: &mut Log<D>,
    sectors: &Alloc,
    entry: &Entry,
    triple: &PointerSector,
    double: &PointerSector,
    group: u32,
    last: u32,
) -> Result<(PointerSector, PointerSector), DeviceFault>
    requires small { last < MOST_BLOCKS }
    requires group { group < INNER_BLOCKS + 1 }
    requires there { end_of sectors.now ≤ log_sectors log.old }
    requires working { has_failed log.old ≡ false }
    ensures next { D.honest (device_of log.old) → NamesTaken (taken_of sectors.now) (view log.old)
        entry.now → (TWICE_LISTED ≤ last → Mirrors (view log.old) entry.now triple_indirect_block
        triple.now.number triple.now.image) → double_of (group + 1) ≢ double_of group
        → LISTED + SERVED * double_of (group + 1) ≤ last
        → IfOk result (λ both. Mirrors (view log.old) entry.now
        (double_indirect_block (double_of (group + 1))) both.0.number both.0.image) }
    ensures late { D.honest (device_of log.old) → NamesTaken (taken_of sectors.now) (view log.old)
        entry.now → (TWICE_LISTED ≤ last → Mirrors (view log.old) entry.now triple_indirect_block
        triple.now.number triple.now.image) → (LISTED + SERVED * double_of group ≤ last
        → Mirrors (view log.old) entry.now (double_indirect_block (double_of group))
        double.now.number double.now.image) → DIRECT + NUMBERS * (group + 1) ≤ last
        → IfOk result (λ both. Mirrors (view log.old) entry.now (segment (group + 1)) both.1.number
        both.1.image) }
    ensures known { IfOk result (λ both. IsKnown sectors.now both.0.number
        × IsKnown sectors.now both.1.number) }
    ensures reads { OnlyReads log.old log.new }
    ensures failed { has_failed log.new ≡ is_err result }
{
    let d = double_of(group + 1);
    if d == double_of(group) {
        let late = load_segment(log, sectors, entry, double, group + 1, last)?;
        return Ok((
            PointerSector {
                number: 0,
                image: [0; 512],
            },
            late,
        ));
    }
    let next = load_double(log, sectors, entry, triple, d, last)?;
    let late = load_segment(log, sectors, entry, &next, group + 1, last)?;
    Ok((next, late))
}

/// Reads a pointer sector.
fn load<D: Device>(
    log: &mut Log<D>,
    sectors: &Alloc,
    number: u32,
) -> Result<PointerSector, DeviceFault>
    requires taken { number ≢ 0 → taken_of sectors.now number ≡ true }
    requires there { end_of sectors.now ≤ log_sectors log.old }
    requires working { has_failed log.old ≡ false }
    ensures image { D.honest (device_of log.old) → IfOk result (λ s.
        s.image ≡ block_bytes (view log.old) number) }
    ensures number { IfOk result (λ s. s.number ≡ number) }
    ensures known { IfOk result (λ s. s.number ≢ 0 → taken_of sectors.now s.number ≡ true) }
    ensures reads { OnlyReads log.old log.new }
    ensures failed { has_failed log.new ≡ is_err result }
{
    let image = read_taken(log, sectors, number)?;
    Ok(PointerSector { number, image })
}

/// Reads the triple-indirect block, if a call that goes up to the data block `last` needs it.
pub fn load_triple<D: Device>(
    log: &mut Log<D>,
    sectors: &Alloc,
    entry: &Entry,
    last: u32,
) -> Result<PointerSector, DeviceFault>
    requires there { end_of sectors.now ≤ log_sectors log.old }
    requires working { has_failed log.old ≡ false }
    ensures right { D.honest (device_of log.old) → NamesTaken (taken_of sectors.now) (view log.old)
        entry.now → TWICE_LISTED ≤ last → IfOk result
        (λ s. Mirrors (view log.old) entry.now triple_indirect_block s.number s.image) }
    ensures known { IfOk result (λ s. s.number ≢ 0 → taken_of sectors.now s.number ≡ true) }
    ensures reads { OnlyReads log.old log.new }
    ensures failed { has_failed log.new ≡ is_err result }
{
    if last < TWICE_LISTED {
        return load(log, sectors, 0);
    }
    let number = taken_or_zero(sectors, entry.pointers[TRIPLE_INDIRECT as usize]);
    load(log, sectors, number)
}

/// Reads a double-indirect block, if a call that goes up to the data block `last` reaches what it serves.
pub fn load_double<D: Device>(
    log: &mut Log<D>,
    sectors: &Alloc,
    entry: &Entry,
    triple: &PointerSector,
    d: u32,
    last: u32,
) -> Result<PointerSector, DeviceFault>
    requires small { last < MOST_BLOCKS }
    requires there { end_of sectors.now ≤ log_sectors log.old }
    requires working { has_failed log.old ≡ false }
    ensures right { D.honest (device_of log.old) → NamesTaken (taken_of sectors.now) (view log.old)
        entry.now → LISTED + SERVED * d ≤ last
        → (TWICE_LISTED ≤ last → Mirrors (view log.old) entry.now triple_indirect_block
        triple.now.number triple.now.image) → IfOk result
        (λ s. Mirrors (view log.old) entry.now (double_indirect_block d) s.number s.image) }
    ensures known { IfOk result (λ s. s.number ≢ 0 → taken_of sectors.now s.number ≡ true) }
    ensures reads { OnlyReads log.old log.new }
    ensures failed { has_failed log.new ≡ is_err result }
{
    if last < LISTED || d > (last - LISTED) / SERVED {
        return load(log, sectors, 0);
    }
    if d == 0 {
        let first = taken_or_zero(sectors, entry.pointers[DOUBLE_INDIRECT as usize]);
        return load(log, sectors, first);
    }
    let number = taken_or_zero(sectors, number_at(&triple.image, d - 1));
    load(log, sectors, number)
}

/// Reads the pointer sector that lists the data blocks from `DIRECT + NUMBERS * group` on, if a call
/// that goes up to the data block `last` reaches them.
pub fn load_segment<D: Device>(
    log: &mut Log<D>,
    sectors: &Alloc,
    entry: &Entry,
    above: &PointerSector,
    group: u32,
    last: u32,
) -> Result<PointerSector, DeviceFault>
    requires small { last < MOST_BLOCKS }
    requires there { end_of sectors.now ≤ log_sectors log.old }
    requires working { has_failed log.old ≡ false }
    ensures right { D.honest (device_of log.old) → NamesTaken (taken_of sectors.now) (view log.old)
        entry.now → DIRECT + NUMBERS * group ≤ last
        → (LISTED + SERVED * double_of group ≤ last
        → Mirrors (view log.old) entry.now (double_indirect_block (double_of group))
        above.now.number above.now.image) → IfOk result
        (λ s. Mirrors (view log.old) entry.now (segment group) s.number s.image) }
    ensures known { IfOk result (λ s. s.number ≢ 0 → taken_of sectors.now s.number ≡ true) }
    ensures reads { OnlyReads log.old log.new }
    ensures failed { has_failed log.new ≡ is_err result }
{
    if last < DIRECT || group > (last - DIRECT) / NUMBERS {
        return load(log, sectors, 0);
    }
    if group == 0 {
        let first = taken_or_zero(sectors, entry.pointers[INDIRECT as usize]);
        return load(log, sectors, first);
    }
    let number = taken_or_zero(sectors, number_at(&above.image, (group - 1) % NUMBERS));
    load(log, sectors, number)
}

/// The sector of a data block, or 0 where it was never written, from the pointer sector that lists
/// it at i.
pub fn listed_sector(sectors: &Alloc, above: &PointerSector, i: u32) -> u32
    requires { i < NUMBERS }
    ensures number { (content : Image) (e : Entry) (q : BlockPosition) (j : ℕ)
        → ListedAt q i (data_block j) → j < MOST_BLOCKS
        → NamesTaken (taken_of sectors.now) content e
        → Mirrors content e q above.now.number above.now.image
        → result ≡ named content e (data_block j) }
    ensures taken { result ≢ 0 → taken_of sectors.now result ≡ true }
{
    taken_or_zero(sectors, number_at(&above.image, i))
}

/// The sector of a data block, or 0 where it was never written, by the pointer sectors of a write
/// that begins at the data block `first`.
pub fn sector_by(sectors: &Alloc, entry: &Entry, all: &PointerSectors, first: u32, j: u32) -> u32
    requires place { j < MOST_BLOCKS }
    requires from { first ≤ j }
    requires near { j ≤ first + NUMBERS }
    ensures number { (content : Image) (last : ℕ) → j ≤ last
        → NamesTaken (taken_of sectors.now) content entry.now
        → MirrorsAll content entry.now all.now first last
        → result ≡ named content entry.now (data_block j) }
    ensures taken { result ≢ 0 → taken_of sectors.now result ≡ true }
{
    if j < DIRECT {
        return taken_or_zero(sectors, entry.pointers[j as usize]);
    }
    let group = (j - DIRECT) / NUMBERS;
    let i = (j - DIRECT) % NUMBERS;
    if group == first.saturating_sub(DIRECT) / NUMBERS {
        return listed_sector(sectors, &all.early, i);
    }
    listed_sector(sectors, &all.late, i)
}

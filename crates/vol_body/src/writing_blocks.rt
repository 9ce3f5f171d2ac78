//! Writing data blocks of a file, once everything that it needs was read.

ghost use Rattle.std.specs.Prelude.{◌≡◌, ◌⊎◌, ◌≤◌, ◌<◌, ◌+◌, ℕ, true};
ghost use Rattle.vol_log.specs.Log.{view, room_of};
ghost use Rattle.vol_alloc.specs.Alloc.{taken_of};
ghost use Rattle.vol_inode.specs.Space.{blocks_for_size};
ghost use Rattle.vol_inode.specs.declared.entry.Entry.{Entry};
ghost use Rattle.vol_body.specs.Body.{BlockPosition, data_block, IsPosition, named, block_bytes};
ghost use Rattle.vol_body.specs.internal.Writing.{Mirrors, IsReady, IsMissing, ChangesPositions, AddsSector, OnlyPuts};
ghost use Rattle.vol_body.specs.internal.Writing.{CanStage, IsKnown, SameRange, PointedAt, ListedAt, IsBlank, staged_count};
ghost use Rattle.vol_inode.specs.declared.pointers.TheConstants.{DIRECT, MOST_BLOCKS, NUMBERS};

use crate::locate::{number_at, taken_or_zero};
use crate::pointer_sectors::{PointerSector, with_number};
use vol_alloc::Alloc;
use vol_inode::Entry;
use vol_log::Log;
use vol_sector::{Device, Sector};

/// Takes a sector for the image, and names it by a pointer of the entry. It says its number, and 0
/// where none is free; then nothing changes.
pub fn add_pointer<D: Device>(
    log: &mut Log<D>,
    sectors: &mut Alloc,
    entry: &mut Entry,
    slot: u32,
    image: &Sector,
) -> u32
    requires pointer { slot < 61 }
    requires can { CanStage log.old sectors.old }
    requires room { 0 < room_of log.old }
    ensures added { (p : BlockPosition) → PointedAt slot p → IsBlank p image.now
        → IsMissing sectors.old (view log.old) entry.old p
        → AddsSector sectors.old sectors.new (view log.old) (view log.new) entry.old entry.new
        (λ q. q ≡ p) p result image.now }
    ensures known { IsKnown sectors.new result }
    ensures keeps { (n : ℕ) → taken_of sectors.old n ≡ true → taken_of sectors.new n ≡ true }
    ensures entry { entry.new ≡ record entry.old { pointers = entry.new.pointers } }
    ensures room { room_of log.old ≤ room_of log.new + staged_count log.new result }
    ensures puts { OnlyPuts log.old log.new }
    ensures range { SameRange sectors.old sectors.new }
{
    if sectors.free_count() == 0 {
        return 0;
    }
    let n = sectors.take();
    log.stage(n, image);
    entry.pointers[slot as usize] = n;
    n
}

/// Takes a sector for the image, and lists it in a pointer sector. It says its number, and 0 where
/// none is free; then nothing changes.
pub fn add_number<D: Device>(
    log: &mut Log<D>,
    sectors: &mut Alloc,
    above: &mut PointerSector,
    i: u32,
    image: &Sector,
) -> u32
    requires place { i < NUMBERS }
    requires can { CanStage log.old sectors.old }
    requires known { taken_of sectors.old above.old.number ≡ true }
    requires room { 1 < room_of log.old }
    ensures added { (e : Entry) (q p : BlockPosition) → ListedAt q i p → IsPosition q → IsPosition p
        → IsBlank p image.now → IsMissing sectors.old (view log.old) e p
        → Mirrors (view log.old) e q above.old.number above.old.image
        → AddsSector sectors.old sectors.new (view log.old) (view log.new) e e
        (λ x. (x ≡ p) ⊎ (x ≡ q)) p result image.now
        × Mirrors (view log.new) e q above.new.number above.new.image }
    ensures known { IsKnown sectors.new result }
    ensures keeps { (n : ℕ) → taken_of sectors.old n ≡ true → taken_of sectors.new n ≡ true }
    ensures number { above.new.number ≡ above.old.number }
    ensures room { room_of log.old + staged_count log.old above.old.number
        ≤ room_of log.new + staged_count log.new above.old.number + staged_count log.new result }
    ensures puts { OnlyPuts log.old log.new }
    ensures range { SameRange sectors.old sectors.new }
{
    if sectors.free_count() == 0 {
        return 0;
    }
    let n = sectors.take();
    log.stage(n, image);
    let numbers = with_number(&above.image, i, n);
    log.stage(above.number, &numbers);
    above.image = numbers;
    n
}

/// Writes a data block that the entry itself names. Where no sector is free for it nothing changes.
pub fn write_direct_block<D: Device>(
    log: &mut Log<D>,
    sectors: &mut Alloc,
    entry: &mut Entry,
    j: u32,
    image: &Sector,
)
    requires direct { j < DIRECT }
    requires can { CanStage log.old sectors.old }
    requires room { 0 < room_of log.old }
    ensures written { IsReady sectors.old (view log.old) entry.old
        → j < blocks_for_size entry.old.size → ChangesPositions sectors.old sectors.new
        (view log.old) (view log.new) entry.old entry.new (λ q. q ≡ data_block j)
        × (block_bytes (view log.new) (named (view log.new) entry.new (data_block j)) ≡ image.now) }
    ensures keeps { (n : ℕ) → taken_of sectors.old n ≡ true → taken_of sectors.new n ≡ true }
    ensures entry { entry.new ≡ record entry.old { pointers = entry.new.pointers } }
    ensures room { room_of log.old ≤ room_of log.new + 1 }
    ensures puts { OnlyPuts log.old log.new }
    ensures range { SameRange sectors.old sectors.new }
{
    let n = taken_or_zero(sectors, entry.pointers[j as usize]);
    if n == 0 {
        add_pointer(log, sectors, entry, j, image);
    } else {
        log.stage(n, image);
    }
}

/// Writes a data block that a pointer sector lists. Where no sector is free for it nothing changes.
pub fn write_listed_block<D: Device>(
    log: &mut Log<D>,
    sectors: &mut Alloc,
    above: &mut PointerSector,
    i: u32,
    image: &Sector,
)
    requires place { i < NUMBERS }
    requires can { CanStage log.old sectors.old }
    requires known { taken_of sectors.old above.old.number ≡ true }
    requires room { 1 < room_of log.old }
    ensures written { (e : Entry) (q : BlockPosition) (j : ℕ) → ListedAt q i (data_block j)
        → IsPosition q → j < MOST_BLOCKS → j < blocks_for_size e.size
        → IsReady sectors.old (view log.old) e → Mirrors (view log.old) e q above.old.number
        above.old.image → ChangesPositions sectors.old sectors.new (view log.old) (view log.new) e e
        (λ x. (x ≡ data_block j) ⊎ (x ≡ q)) × (block_bytes (view log.new)
        (named (view log.new) e (data_block j)) ≡ image.now)
        × Mirrors (view log.new) e q above.new.number above.new.image }
    ensures keeps { (n : ℕ) → taken_of sectors.old n ≡ true → taken_of sectors.new n ≡ true }
    ensures number { above.new.number ≡ above.old.number }
    ensures room { room_of log.old + staged_count log.old above.old.number
        ≤ room_of log.new + staged_count log.new above.old.number + 1 }
    ensures puts { OnlyPuts log.old log.new }
    ensures range { SameRange sectors.old sectors.new }
{
    let n = taken_or_zero(sectors, number_at(&above.image, i));
    if n == 0 {
        add_number(log, sectors, above, i, image);
    } else {
        log.stage(n, image);
    }
}

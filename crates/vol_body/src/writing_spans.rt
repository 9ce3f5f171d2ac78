//! Writing all the data blocks that a write touches.

ghost use Rattle.std.specs.Prelude.{◌≡◌, ◌≢◌, ◌⊎◌, ◌≤◌, ◌<◌, ◌+◌, ◌-◌, ◌*◌, ℕ, true, length};
ghost use Rattle.vol_log.specs.Log.{view, room_of};
ghost use Rattle.vol_alloc.specs.Alloc.{taken_of};
ghost use Rattle.vol_inode.specs.Space.{blocks_for_size};
ghost use Rattle.vol_inode.specs.declared.entry.Entry.{Entry};
ghost use Rattle.vol_body.specs.Body.{BlockPosition, double_indirect_block, triple_indirect_block, first_served};
ghost use Rattle.vol_body.specs.internal.Writing.{Mirrors, IsReady, ChangesPositions, AddsSector, IsBlockIn, HasBlocks};
ghost use Rattle.vol_body.specs.internal.Writing.{CanStage, AreTouched, AreListed, IsKnown};
ghost use Rattle.vol_body.specs.internal.Writing.{OnlyPuts, SameRange, segment, double_of, staged_count, image_of};
ghost use Rattle.vol_body.specs.internal.Writing.{MirrorsAll, KnowsAll, IsAbove, IsPointer, PointedAt};
ghost use Rattle.vol_inode.specs.declared.pointers.TheConstants.{DOUBLE_INDIRECT_BLOCKS, INNER_BLOCKS, MOST_BLOCKS, SERVED};

use crate::pointer_sectors::{PointerSector, PointerSectors, double_of};
use crate::source::Source;
use crate::writing_blocks::{add_number, add_pointer, write_direct_block, write_listed_block};
use crate::writing_image::{Piece, bytes_from, image_of_block};
use vol_alloc::Alloc;
use vol_inode::{DIRECT, DOUBLE_INDIRECT, Entry, INDIRECT, LISTED, NUMBERS, TRIPLE_INDIRECT};
use vol_log::Log;
use vol_sector::Device;

/// Writes all the data blocks that are touched, from `first` to `last`.
pub fn write_blocks<D: Device>(
    log: &mut Log<D>,
    sectors: &mut Alloc,
    entry: &mut Entry,
    all: &mut PointerSectors,
    piece: &Piece,
    bytes: &Source<'_>,
    first: u32,
    last: u32,
)
    requires can { CanStage log.old sectors.old }
    requires room { 39 ≤ room_of log.old }
    requires few { last < first + 33 }
    requires some { first ≤ last }
    requires last { last < MOST_BLOCKS }
    requires touched { AreTouched piece.now.offset (length bytes.now) first (last + 1) }
    requires known { KnowsAll sectors.old all.old }
    ensures written { IsReady sectors.old (view log.old) entry.old
        → last < blocks_for_size entry.old.size → MirrorsAll (view log.old) entry.old all.old first
        last → ChangesPositions sectors.old sectors.new (view log.old) (view log.new) entry.old
        entry.new (λ p. IsBlockIn first (last + 1) p ⊎ IsPointer p)
        × HasBlocks (view log.new) entry.new first (last + 1)
        (image_of piece.now.offset bytes.now piece.now.first piece.now.last) }
    ensures entry { entry.new ≡ record entry.old { pointers = entry.new.pointers } }
    ensures room { room_of log.old ≤ room_of log.new + 38 }
    ensures puts { OnlyPuts log.old log.new }
    ensures range { SameRange sectors.old sectors.new }
{
    write_direct(
        log,
        sectors,
        entry,
        piece,
        bytes,
        first,
        (last + 1).min(DIRECT),
    );
    let group = first.saturating_sub(DIRECT) / NUMBERS;
    let border = LISTED + NUMBERS * group;
    write_segment(
        log,
        sectors,
        entry,
        &mut all.triple,
        &mut all.double,
        &mut all.early,
        group,
        piece,
        bytes,
        first.max(DIRECT),
        (last + 1).min(border),
    );
    take_next(&mut all.double, &all.next_double, group);
    write_segment(
        log,
        sectors,
        entry,
        &mut all.triple,
        &mut all.double,
        &mut all.late,
        group + 1,
        piece,
        bytes,
        border,
        last + 1,
    );
}

/// Goes on from the double-indirect block that names the pointer sector of a group to that of the group after it,
/// where that is another one.
fn take_next(double: &mut PointerSector, next: &PointerSector, group: u32)
    requires { group < INNER_BLOCKS + 1 }
    ensures same { double_of (group + 1) ≡ double_of group → double.new ≡ double.old }
    ensures next { double_of (group + 1) ≢ double_of group
        → (double.new.number ≡ next.now.number) × (double.new.image ≡ next.now.image) }
{
    if double_of(group + 1) != double_of(group) {
        let image = next.image;
        double.number = next.number;
        double.image = image;
    }
}

/// Writes the data blocks between two that the entry itself names.
fn write_direct<D: Device>(
    log: &mut Log<D>,
    sectors: &mut Alloc,
    entry: &mut Entry,
    piece: &Piece,
    bytes: &Source<'_>,
    from: u32,
    to: u32,
)
    requires direct { to ≤ DIRECT }
    requires can { CanStage log.old sectors.old }
    requires room { to - from ≤ room_of log.old }
    requires touched { AreTouched piece.now.offset (length bytes.now) from to }
    ensures written { IsReady sectors.old (view log.old) entry.old
        → to ≤ blocks_for_size entry.old.size → ChangesPositions sectors.old sectors.new
        (view log.old) (view log.new) entry.old entry.new (IsBlockIn from to)
        × HasBlocks (view log.new) entry.new from to
        (image_of piece.now.offset bytes.now piece.now.first piece.now.last) }
    ensures keeps { (n : ℕ) → taken_of sectors.old n ≡ true → taken_of sectors.new n ≡ true }
    ensures entry { entry.new ≡ record entry.old { pointers = entry.new.pointers } }
    ensures room { room_of log.old ≤ room_of log.new + (to - from) }
    ensures puts { OnlyPuts log.old log.new }
    ensures range { SameRange sectors.old sectors.new }
{
    let mut rest = bytes_from(piece, bytes, from);
    for j in from..to {
        let image = image_of_block(piece, bytes, &mut rest, j);
        write_direct_block(log, sectors, entry, j, &image);
    }
}

/// Writes data blocks between two that the pointer sector of the group lists.
fn write_segment<D: Device>(
    log: &mut Log<D>,
    sectors: &mut Alloc,
    entry: &mut Entry,
    triple: &mut PointerSector,
    double: &mut PointerSector,
    above: &mut PointerSector,
    group: u32,
    piece: &Piece,
    bytes: &Source<'_>,
    from: u32,
    to: u32,
)
    requires can { CanStage log.old sectors.old }
    requires room { to - from + 4 ≤ room_of log.old + staged_count log.old double.old.number
        + staged_count log.old triple.old.number }
    requires listed { AreListed (DIRECT + NUMBERS * group) from to }
    requires touched { AreTouched piece.now.offset (length bytes.now) from to }
    requires known { IsKnown sectors.old above.old.number × IsKnown sectors.old double.old.number
        × IsKnown sectors.old triple.old.number }
    ensures written { IsReady sectors.old (view log.old) entry.old
        → to ≤ blocks_for_size entry.old.size
        → (from < to → Mirrors (view log.old) entry.old (segment group) above.old.number
        above.old.image) → (from < to → 1 ≤ group → Mirrors (view log.old) entry.old
        (double_indirect_block (double_of group)) double.old.number double.old.image)
        → (from < to → 1 ≤ double_of group → Mirrors (view log.old) entry.old triple_indirect_block
        triple.old.number triple.old.image) → ChangesPositions sectors.old sectors.new
        (view log.old) (view log.new) entry.old entry.new
        (λ p. IsBlockIn from to p ⊎ IsAbove group p)
        × HasBlocks (view log.new) entry.new from to
        (image_of piece.now.offset bytes.now piece.now.first piece.now.last)
        × (Mirrors (view log.old) entry.old (double_indirect_block (double_of group))
        double.old.number double.old.image → Mirrors (view log.new) entry.new
        (double_indirect_block (double_of group)) double.new.number double.new.image)
        × (Mirrors (view log.old) entry.old triple_indirect_block triple.old.number triple.old.image
        → Mirrors (view log.new) entry.new triple_indirect_block triple.new.number
        triple.new.image) }
    ensures keeps { (n : ℕ) → taken_of sectors.old n ≡ true → taken_of sectors.new n ≡ true }
    ensures known { IsKnown sectors.new double.new.number × IsKnown sectors.new triple.new.number }
    ensures entry { entry.new ≡ record entry.old { pointers = entry.new.pointers } }
    ensures room { room_of log.old + staged_count log.old double.old.number
        + staged_count log.old triple.old.number
        ≤ room_of log.new + staged_count log.new double.new.number
        + staged_count log.new triple.new.number + (to - from) + 1 }
    ensures puts { OnlyPuts log.old log.new }
    ensures range { SameRange sectors.old sectors.new }
{
    if to <= from {
        return;
    }
    open_segment(log, sectors, entry, triple, double, above, group);
    if above.number != 0 {
        write_listed(
            log,
            sectors,
            above,
            DIRECT + NUMBERS * group,
            piece,
            bytes,
            from,
            to,
        );
    }
}

/// Writes data blocks between two that one pointer sector lists, which has the number of data block `start`
/// first.
fn write_listed<D: Device>(
    log: &mut Log<D>,
    sectors: &mut Alloc,
    above: &mut PointerSector,
    start: u32,
    piece: &Piece,
    bytes: &Source<'_>,
    from: u32,
    to: u32,
)
    requires can { CanStage log.old sectors.old }
    requires known { taken_of sectors.old above.old.number ≡ true }
    requires room { to - from + 2 ≤ room_of log.old + staged_count log.old above.old.number }
    requires listed { AreListed start from to }
    requires touched { AreTouched piece.now.offset (length bytes.now) from to }
    ensures written { (e : Entry) (g : ℕ) → start ≡ DIRECT + NUMBERS * g
        → to ≤ blocks_for_size e.size → IsReady sectors.old (view log.old) e
        → Mirrors (view log.old) e (segment g) above.old.number above.old.image
        → ChangesPositions sectors.old sectors.new (view log.old) (view log.new) e e
        (λ p. IsBlockIn from to p ⊎ (p ≡ segment g))
        × HasBlocks (view log.new) e from to
        (image_of piece.now.offset bytes.now piece.now.first piece.now.last) }
    ensures keeps { (n : ℕ) → taken_of sectors.old n ≡ true → taken_of sectors.new n ≡ true }
    ensures room { room_of log.old + staged_count log.old above.old.number
        ≤ room_of log.new + staged_count log.new above.old.number + (to - from) }
    ensures puts { OnlyPuts log.old log.new }
    ensures range { SameRange sectors.old sectors.new }
{
    let mut rest = bytes_from(piece, bytes, from);
    for j in from..to {
        let image = image_of_block(piece, bytes, &mut rest, j);
        write_listed_block(log, sectors, above, j - start, &image);
    }
}

/// Makes the pointer sector of a group, and those by which it is found, where there is none.
fn open_segment<D: Device>(
    log: &mut Log<D>,
    sectors: &mut Alloc,
    entry: &mut Entry,
    triple: &mut PointerSector,
    double: &mut PointerSector,
    above: &mut PointerSector,
    group: u32,
)
    requires place { group < INNER_BLOCKS + 1 }
    requires can { CanStage log.old sectors.old }
    requires room { 4 ≤ room_of log.old + staged_count log.old double.old.number
        + staged_count log.old triple.old.number }
    requires known { IsKnown sectors.old above.old.number × IsKnown sectors.old double.old.number
        × IsKnown sectors.old triple.old.number }
    ensures opened { IsReady sectors.old (view log.old) entry.old
        → DIRECT + NUMBERS * group < blocks_for_size entry.old.size
        → Mirrors (view log.old) entry.old (segment group) above.old.number above.old.image
        → (1 ≤ group → Mirrors (view log.old) entry.old (double_indirect_block (double_of group))
        double.old.number double.old.image) → (1 ≤ double_of group
        → Mirrors (view log.old) entry.old triple_indirect_block triple.old.number triple.old.image)
        → AddsSector sectors.old sectors.new (view log.old) (view log.new) entry.old entry.new
        (IsAbove group) (segment group) above.new.number above.new.image
        × (Mirrors (view log.old) entry.old (double_indirect_block (double_of group))
        double.old.number double.old.image → Mirrors (view log.new) entry.new
        (double_indirect_block (double_of group)) double.new.number double.new.image)
        × (Mirrors (view log.old) entry.old triple_indirect_block triple.old.number triple.old.image
        → Mirrors (view log.new) entry.new triple_indirect_block triple.new.number
        triple.new.image) }
    ensures known { IsKnown sectors.new above.new.number × IsKnown sectors.new double.new.number
        × IsKnown sectors.new triple.new.number }
    ensures keeps { (n : ℕ) → taken_of sectors.old n ≡ true → taken_of sectors.new n ≡ true }
    ensures entry { entry.new ≡ record entry.old { pointers = entry.new.pointers } }
    ensures room { room_of log.old + staged_count log.old double.old.number
        + staged_count log.old triple.old.number + staged_count log.old above.old.number
        ≤ room_of log.new + staged_count log.new double.new.number
        + staged_count log.new triple.new.number + staged_count log.new above.new.number }
    ensures puts { OnlyPuts log.old log.new }
    ensures range { SameRange sectors.old sectors.new }
{
    if group == 0 {
        open_pointer(log, sectors, entry, INDIRECT, above);
        return;
    }
    open_double(log, sectors, entry, triple, double, double_of(group));
    if above.number == 0 && double.number != 0 {
        above.number = add_number(log, sectors, double, (group - 1) % NUMBERS, &[0; 512]);
    }
}

/// Makes a double-indirect block, and the triple-indirect block that names it unless it is the first, where there is
/// none.
fn open_double<D: Device>(
    log: &mut Log<D>,
    sectors: &mut Alloc,
    entry: &mut Entry,
    triple: &mut PointerSector,
    double: &mut PointerSector,
    d: u32,
)
    requires place { d < DOUBLE_INDIRECT_BLOCKS }
    requires can { CanStage log.old sectors.old }
    requires room { 3 ≤ room_of log.old + staged_count log.old triple.old.number }
    requires known { IsKnown sectors.old double.old.number × IsKnown sectors.old triple.old.number }
    ensures opened { IsReady sectors.old (view log.old) entry.old
        → LISTED + SERVED * d < blocks_for_size entry.old.size
        → Mirrors (view log.old) entry.old (double_indirect_block d) double.old.number
        double.old.image → (1 ≤ d → Mirrors (view log.old) entry.old triple_indirect_block
        triple.old.number triple.old.image) → AddsSector sectors.old sectors.new (view log.old)
        (view log.new) entry.old entry.new (λ p. (p ≡ double_indirect_block d)
        ⊎ (p ≡ triple_indirect_block)) (double_indirect_block d) double.new.number double.new.image
        × (Mirrors (view log.old) entry.old triple_indirect_block triple.old.number triple.old.image
        → Mirrors (view log.new) entry.new triple_indirect_block triple.new.number
        triple.new.image) }
    ensures known { IsKnown sectors.new double.new.number }
    ensures known_triple { IsKnown sectors.new triple.new.number }
    ensures keeps { (n : ℕ) → taken_of sectors.old n ≡ true → taken_of sectors.new n ≡ true }
    ensures entry { entry.new ≡ record entry.old { pointers = entry.new.pointers } }
    ensures room { room_of log.old + staged_count log.old triple.old.number
        + staged_count log.old double.old.number
        ≤ room_of log.new + staged_count log.new triple.new.number
        + staged_count log.new double.new.number }
    ensures puts { OnlyPuts log.old log.new }
    ensures range { SameRange sectors.old sectors.new }
{
    if d == 0 {
        open_pointer(log, sectors, entry, DOUBLE_INDIRECT, double);
        return;
    }
    open_pointer(log, sectors, entry, TRIPLE_INDIRECT, triple);
    if double.number == 0 && triple.number != 0 {
        double.number = add_number(log, sectors, triple, d - 1, &[0; 512]);
    }
}

/// Makes a pointer sector that the entry names, where there is none.
fn open_pointer<D: Device>(
    log: &mut Log<D>,
    sectors: &mut Alloc,
    entry: &mut Entry,
    slot: u32,
    above: &mut PointerSector,
)
    requires pointer { slot < 61 }
    requires can { CanStage log.old sectors.old }
    requires room { 0 < room_of log.old }
    requires known { IsKnown sectors.old above.old.number }
    ensures opened { (p : BlockPosition) → PointedAt slot p → INDIRECT ≤ slot
        → IsReady sectors.old (view log.old) entry.old
        → first_served p < blocks_for_size entry.old.size
        → Mirrors (view log.old) entry.old p above.old.number above.old.image
        → AddsSector sectors.old sectors.new (view log.old) (view log.new) entry.old entry.new
        (λ q. q ≡ p) p above.new.number above.new.image }
    ensures known { IsKnown sectors.new above.new.number }
    ensures keeps { (n : ℕ) → taken_of sectors.old n ≡ true → taken_of sectors.new n ≡ true }
    ensures entry { entry.new ≡ record entry.old { pointers = entry.new.pointers } }
    ensures room { room_of log.old + staged_count log.old above.old.number
        ≤ room_of log.new + staged_count log.new above.new.number }
    ensures puts { OnlyPuts log.old log.new }
    ensures range { SameRange sectors.old sectors.new }
{
    if above.number == 0 {
        above.number = add_pointer(log, sectors, entry, slot, &[0; 512]);
    }
}

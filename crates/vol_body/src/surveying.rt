//! Which sectors a file names, before it is known which ones are taken.

ghost use Rattle.std.specs.Prelude.{◌≡◌, ◌≢◌, ◌≤◌, ◌<◌, ◌+◌, ◌*◌, ◌++◌, ◌∷◌, ◌⊎◌, ℕ, [], true, false};
ghost use Rattle.std.specs.Prelude.{IfOk, OnOk, IfErr, IsErr, IsTrue, is_err, drop, map, slice_index};
ghost use Rattle.byteorder.specs.Endian.{little_number};
ghost use Rattle.vol_sector.specs.Fault.{device_failed, IsDamage};
ghost use Rattle.vol_log.specs.Log.{view, log_sectors, has_failed, device_of};
ghost use Rattle.vol_log.specs.Reading.{OnlyReads};
ghost use Rattle.vol_inode.specs.Entry.{UnusedPointersAreZero};
ghost use Rattle.vol_body.specs.Body.{data_block, inner_block, named as named_at, number_in};
ghost use Rattle.vol_body.specs.Survey.{every_position, sectors_named, AreInside, IsTrimmed};
ghost use Rattle.vol_body.specs.internal.Surveying.{listed, with_listed, all_listed, with_all_listed, all_with_all_listed};
ghost use Rattle.vol_body.specs.internal.Surveying.{Pushes, Overflows, Surveys};
ghost use Rattle.vol_body.specs.internal.Surveying.{ListsNoneFrom, LaterListNone, LaterNone, DoublesNone, TripleNone};
ghost use Rattle.vol_body.specs.internal.Surveying.{NamesNonePast, NamesBelow, EndsInZeros};
ghost use Rattle.vol_inode.specs.declared.pointers.TheConstants.{INNER_BLOCKS, MOST_BLOCKS};
ghost use Rattle.vol_inode.specs.declared.version.TheConstants.{LARGEST_SIZE};

use crate::locate::{Numbers, number_at};
use vol_inode::{
    DIRECT, DOUBLE_INDIRECT, Entry, INDIRECT, LISTED, NUMBERS, SERVED, TRIPLE_INDIRECT,
    TWICE_LISTED,
};
use vol_log::Log;
use vol_sector::{Damage, Device, DeviceFault, Rule, Sector, VolumeFault};

/// Pushes the number, unless it is 0. It is refused as `Damaged` where it is out of the range, or
/// where there are as many as the range has sectors.
fn push_number(named: &mut Vec<u32>, n: u32, first: u32, end: u32) -> Result<(), VolumeFault>
    requires { AreInside first end named.old.items }
    ensures pushes { OnOk result (Pushes first end named.old.items named.new.items (n ∷ [])) }
    ensures within { OnOk result (n ≢ 0 → n < end) }
    ensures damaged { IfErr result (λ fault. IsDamage fault
        → Overflows first end named.old.items (n ∷ [])) }
    ensures refused { IfErr result (λ fault. IsDamage fault
        ⊎ (fault ≡ VolumeFault.Memory)) }
{
    if n == 0 {
        return Ok(());
    }
    if n < first || end <= n || (end - first) as usize <= named.len() {
        return Err(VolumeFault::Damaged(Damage {
            sector: None,
            rule: pointer_rule(n, first, end),
        }));
    }
    match named.push(n) {
        Ok(()) => Ok(()),
        Err(_) => Err(VolumeFault::Memory),
    }
}

/// The rule that such a number breaks: more numbers than there are data sectors name one twice.
fn pointer_rule(n: u32, first: u32, end: u32) -> Rule {
    if n < first || end <= n {
        Rule::Pointer
    } else {
        Rule::SectorTwice
    }
}

/// Pushes the numbers but for those that are 0.
fn push_all(named: &mut Vec<u32>, numbers: &[u32], first: u32, end: u32) -> Result<(), VolumeFault>
    requires { AreInside first end named.old.items }
    ensures pushes { OnOk result
        (Pushes first end named.old.items named.new.items numbers.now) }
    ensures damaged { IfErr result (λ fault. IsDamage fault
        → Overflows first end named.old.items numbers.now) }
    ensures refused { IfErr result (λ fault. IsDamage fault
        ⊎ (fault ≡ VolumeFault.Memory)) }
{
    for n in numbers {
        push_number(named, *n, first, end)?;
    }
    Ok(())
}

/// The numbers of a pointer sector.
fn numbers_in(image: &Sector) -> Numbers
    ensures { (i : ℕ) → i < NUMBERS
        → slice_index result i ≡ little_number 4 (drop (4 * i) image.now) }
{
    let mut numbers = [0; NUMBERS as usize];
    for i in 0..NUMBERS {
        numbers[i as usize] = number_at(image, i);
    }
    numbers
}

/// Whether the numbers from one place on are all 0.
fn none_from(numbers: &Numbers, from: u32) -> bool
    ensures yes { IsTrue result → (i : ℕ) → from ≤ i → i < NUMBERS
        → slice_index numbers.now i ≡ 0 }
    ensures no { ((i : ℕ) → from ≤ i → i < NUMBERS → slice_index numbers.now i ≡ 0)
        → IsTrue result }
{
    for i in from.min(NUMBERS)..NUMBERS {
        if numbers[i as usize] != 0 {
            return false;
        }
    }
    true
}

/// The numbers that a pointer sector lists, zeros where there is no such sector. It is refused as
/// `Damaged` where one from the place `from` on isn't 0.
fn read_numbers<D: Device>(
    log: &mut Log<D>,
    indirect_block: u32,
    from: u32,
) -> Result<Numbers, VolumeFault>
    requires there { indirect_block ≢ 0 → indirect_block < log_sectors log.old }
    requires working { has_failed log.old ≡ false }
    ensures numbers { D.honest (device_of log.old)
        → IfOk result (λ numbers. numbers ≡ listed (view log.old) indirect_block) }
    ensures past { D.honest (device_of log.old)
        → OnOk result (ListsNoneFrom (view log.old) indirect_block from) }
    ensures damaged { D.honest (device_of log.old)
        → IfErr result (λ fault. IsDamage fault
        → ListsNoneFrom (view log.old) indirect_block from → ⊥) }
    ensures refused { IfErr result (λ fault. IsDamage fault
        ⊎ (fault ≡ VolumeFault.Device)) }
    ensures reads { OnlyReads log.old log.new }
    ensures failed { has_failed log.new ≡ device_failed result }
{
    if indirect_block == 0 {
        return Ok([0; NUMBERS as usize]);
    }
    let image = log.read(indirect_block)?;
    let numbers = numbers_in(&image);
    if !none_from(&numbers, from) {
        return Err(VolumeFault::Damaged(Damage {
            sector: None,
            rule: Rule::PointerPastSize,
        }));
    }
    Ok(numbers)
}

/// Pushes the number of a pointer sector and those that it lists. None may stand from the place
/// `from` on.
fn survey_indirect_block<D: Device>(
    log: &mut Log<D>,
    indirect_block: u32,
    from: u32,
    first: u32,
    end: u32,
    named: &mut Vec<u32>,
) -> Result<(), VolumeFault>
    requires there { end ≤ log_sectors log.old }
    requires working { has_failed log.old ≡ false }
    requires inside { AreInside first end named.old.items }
    ensures { Surveys first end log.old log.new named.old.items named.new.items
        (with_listed (view log.old) indirect_block)
        (ListsNoneFrom (view log.old) indirect_block from) result }
{
    if indirect_block == 0 {
        return Ok(()); // no numbers are listed
    }
    push_number(named, indirect_block, first, end)?;
    let numbers = read_numbers(log, indirect_block, from)?;
    push_all(named, &numbers, first, end)
}

/// Pushes the numbers of the inner blocks and those that they list. None may stand for a data block from `count` on: the i-th
/// inner block lists those from `start + NUMBERS * i` on. One that lies wholly past `count` must list nothing (`from` is 0), and
/// a 0 among the inner blocks is no block.
fn survey_inner_blocks<D: Device>(
    log: &mut Log<D>,
    inner_blocks: &Numbers,
    start: u32,
    count: u32,
    first: u32,
    end: u32,
    named: &mut Vec<u32>,
) -> Result<(), VolumeFault>
    requires there { end ≤ log_sectors log.old }
    requires working { has_failed log.old ≡ false }
    requires inside { AreInside first end named.old.items }
    requires place { start < MOST_BLOCKS }
    ensures { Surveys first end log.old log.new named.old.items named.new.items
        (all_listed (view log.old) inner_blocks.now)
        (LaterListNone (view log.old) inner_blocks.now start count) result }
{
    for i in 0..NUMBERS {
        let from = count.saturating_sub(start + NUMBERS * i);
        survey_indirect_block(log, inner_blocks[i as usize], from, first, end, named)?;
    }
    Ok(())
}

/// Pushes the number of a double-indirect block, which serves data blocks from `start` on, those of its
/// inner blocks, and those that they list. None may stand for a data block from `count` on.
fn survey_double_indirect_block<D: Device>(
    log: &mut Log<D>,
    double_indirect_block: u32,
    start: u32,
    count: u32,
    first: u32,
    end: u32,
    named: &mut Vec<u32>,
) -> Result<(), VolumeFault>
    requires there { end ≤ log_sectors log.old }
    requires working { has_failed log.old ≡ false }
    requires inside { AreInside first end named.old.items }
    requires place { start < MOST_BLOCKS }
    ensures { Surveys first end log.old log.new named.old.items named.new.items
        (with_all_listed (view log.old) double_indirect_block)
        (LaterNone (view log.old) double_indirect_block start count) result }
{
    if double_indirect_block == 0 {
        return Ok(()); // nor are there any inner blocks
    }
    push_number(named, double_indirect_block, first, end)?;
    let kept = count.saturating_sub(start).div_ceil(NUMBERS);
    let numbers = read_numbers(log, double_indirect_block, kept)?;
    survey_inner_blocks(log, &numbers, start, count, first, end, named)
}

/// Pushes the numbers of the double-indirect blocks after the first, with all that they name. None may stand for a data
/// block from `count` on.
fn survey_double_indirect_blocks<D: Device>(
    log: &mut Log<D>,
    double_indirect_blocks: &Numbers,
    count: u32,
    first: u32,
    end: u32,
    named: &mut Vec<u32>,
) -> Result<(), VolumeFault>
    requires there { end ≤ log_sectors log.old }
    requires working { has_failed log.old ≡ false }
    requires inside { AreInside first end named.old.items }
    ensures { Surveys first end log.old log.new named.old.items named.new.items
        (all_with_all_listed (view log.old) double_indirect_blocks.now)
        (DoublesNone (view log.old) double_indirect_blocks.now count) result }
{
    for m in 0..NUMBERS {
        let start = TWICE_LISTED + SERVED * m;
        let number = double_indirect_blocks[m as usize];
        survey_double_indirect_block(log, number, start, count, first, end, named)?;
    }
    Ok(())
}

/// Pushes the number of the triple-indirect block, those of its double-indirect blocks, and all that they
/// name. None may stand for a data block from `count` on.
fn survey_triple_indirect_block<D: Device>(
    log: &mut Log<D>,
    triple_indirect_block: u32,
    count: u32,
    first: u32,
    end: u32,
    named: &mut Vec<u32>,
) -> Result<(), VolumeFault>
    requires there { end ≤ log_sectors log.old }
    requires working { has_failed log.old ≡ false }
    requires inside { AreInside first end named.old.items }
    ensures { Surveys first end log.old log.new named.old.items named.new.items
        (triple_indirect_block ∷ all_with_all_listed (view log.old)
        (listed (view log.old) triple_indirect_block))
        (TripleNone (view log.old) triple_indirect_block count) result }
{
    if triple_indirect_block == 0 {
        return Ok(()); // nor are there any double-indirect blocks
    }
    push_number(named, triple_indirect_block, first, end)?;
    let kept = count.saturating_sub(TWICE_LISTED).div_ceil(SERVED);
    let numbers = read_numbers(log, triple_indirect_block, kept)?;
    survey_double_indirect_blocks(log, &numbers, count, first, end, named)
}

/// Pushes all numbers that the file names. None may stand for a data block at or past its size.
fn survey_sectors<D: Device>(
    log: &mut Log<D>,
    entry: &Entry,
    first: u32,
    end: u32,
    named: &mut Vec<u32>,
) -> Result<(), VolumeFault>
    requires there { end ≤ log_sectors log.old }
    requires working { has_failed log.old ≡ false }
    requires pointers { UnusedPointersAreZero entry.now }
    requires inside { AreInside first end named.old.items }
    ensures { Surveys first end log.old log.new named.old.items named.new.items
        (map (named_at (view log.old) entry.now) every_position)
        (NamesNonePast (view log.old) entry.now) result }
{
    let count = entry.size.div_ceil(512);
    push_all(named, &entry.pointers[..DIRECT as usize], first, end)?;
    let from = count.saturating_sub(DIRECT);
    survey_indirect_block(
        log,
        entry.pointers[INDIRECT as usize],
        from,
        first,
        end,
        named,
    )?;
    survey_double_indirect_block(
        log,
        entry.pointers[DOUBLE_INDIRECT as usize],
        LISTED,
        count,
        first,
        end,
        named,
    )?;
    survey_triple_indirect_block(
        log,
        entry.pointers[TRIPLE_INDIRECT as usize],
        count,
        first,
        end,
        named,
    )
}

/// Whether the bytes from one place on are all 0.
fn zeros_from(image: &Sector, from: u32) -> bool
    ensures yes { IsTrue result → (i : ℕ) → from ≤ i → i < 512
        → slice_index image.now i ≡ 0 }
    ensures no { ((i : ℕ) → from ≤ i → i < 512 → slice_index image.now i ≡ 0) → IsTrue result }
{
    for i in from.min(512)..512 {
        if image[i as usize] != 0 {
            return false;
        }
    }
    true
}

/// The `i`-th number of a pointer sector. Sector 0 stands for none.
fn number_of<D: Device>(
    log: &mut Log<D>,
    indirect_block: u32,
    i: u32,
    end: u32,
) -> Result<u32, DeviceFault>
    requires place { i < NUMBERS }
    requires there { end ≤ log_sectors log.old }
    requires working { has_failed log.old ≡ false }
    ensures number { D.honest (device_of log.old) → (indirect_block ≢ 0 → indirect_block < end)
        → IfOk result (λ n. n ≡ number_in (view log.old) indirect_block i) }
    ensures reads { OnlyReads log.old log.new }
    ensures failed { has_failed log.new ≡ is_err result }
{
    if indirect_block == 0 {
        return Ok(0);
    }
    if end <= indirect_block {
        return Ok(0);
    }
    let image = log.read(indirect_block)?;
    Ok(number_at(&image, i))
}

/// The sector of a data block of the file, or 0 where it was never written.
fn block_sector<D: Device>(
    log: &mut Log<D>,
    entry: &Entry,
    j: u32,
    end: u32,
) -> Result<u32, DeviceFault>
    requires place { j < MOST_BLOCKS }
    requires there { end ≤ log_sectors log.old }
    requires working { has_failed log.old ≡ false }
    ensures sector { D.honest (device_of log.old) → NamesBelow (view log.old) entry.now end
        → IfOk result (λ n. n ≡ named_at (view log.old) entry.now (data_block j)) }
    ensures reads { OnlyReads log.old log.new }
    ensures failed { has_failed log.new ≡ is_err result }
{
    if j < DIRECT {
        return Ok(entry.pointers[j as usize]);
    }
    if j < LISTED {
        return number_of(log, entry.pointers[INDIRECT as usize], j - DIRECT, end);
    }
    let inner_block = inner_block_sector(log, entry, (j - LISTED) / NUMBERS, end)?;
    number_of(log, inner_block, (j - LISTED) % NUMBERS, end)
}

/// The sector of an inner block of the file, or 0 where it was never written.
fn inner_block_sector<D: Device>(
    log: &mut Log<D>,
    entry: &Entry,
    i: u32,
    end: u32,
) -> Result<u32, DeviceFault>
    requires place { i < INNER_BLOCKS }
    requires there { end ≤ log_sectors log.old }
    requires working { has_failed log.old ≡ false }
    ensures sector { D.honest (device_of log.old) → NamesBelow (view log.old) entry.now end
        → IfOk result (λ n. n ≡ named_at (view log.old) entry.now (inner_block i)) }
    ensures reads { OnlyReads log.old log.new }
    ensures failed { has_failed log.new ≡ is_err result }
{
    if i < NUMBERS {
        return number_of(log, entry.pointers[DOUBLE_INDIRECT as usize], i, end);
    }
    let triple = entry.pointers[TRIPLE_INDIRECT as usize];
    let double = number_of(log, triple, i / NUMBERS - 1, end)?;
    number_of(log, double, i % NUMBERS, end)
}

/// Whether the bytes past the file's size are zeros in the data block that the size ends in.
fn ends_in_zeros<D: Device>(log: &mut Log<D>, entry: &Entry, end: u32) -> Result<bool, DeviceFault>
    requires there { end ≤ log_sectors log.old }
    requires working { has_failed log.old ≡ false }
    requires small { entry.now.size ≤ LARGEST_SIZE }
    ensures yes { D.honest (device_of log.old) → NamesBelow (view log.old) entry.now end
        → IfOk result (λ zeros. IsTrue zeros → EndsInZeros (view log.old) entry.now) }
    ensures no { D.honest (device_of log.old) → NamesBelow (view log.old) entry.now end
        → IfOk result (λ zeros. EndsInZeros (view log.old) entry.now → IsTrue zeros) }
    ensures reads { OnlyReads log.old log.new }
    ensures failed { has_failed log.new ≡ is_err result }
{
    let from = entry.size % 512;
    if from == 0 {
        return Ok(true);
    }
    let n = block_sector(log, entry, entry.size / 512, end)?;
    if n == 0 {
        return Ok(true);
    }
    if end <= n {
        return Ok(true);
    }
    let image = log.read(n)?;
    Ok(zeros_from(&image, from))
}

/// Pushes the number of each sector that the file names, in the order of its positions, after the
/// numbers that were pushed before.
///
/// It is refused as `Damaged` where a number is out of the data sectors from `first` to the one
/// before `end`, where there are more numbers than data sectors, where a number stands for a data block
/// at or past the size, or where a byte past the size is not 0; then some numbers may have been
/// pushed. It is refused as `Device` where the log has failed, before or now, and as `Memory`. Of a
/// damage no sector is named: it is that of the entry's slot, which isn't known here.
pub fn survey<D: Device>(
    log: &mut Log<D>,
    entry: &Entry,
    first: u32,
    end: u32,
    named: &mut Vec<u32>,
) -> Result<(), VolumeFault>
    requires there { end ≤ log_sectors log.old }
    requires pointers { UnusedPointersAreZero entry.now }
    requires small { entry.now.size ≤ LARGEST_SIZE }
    requires inside { AreInside first end named.old.items }
    ensures named { D.honest (device_of log.old) → OnOk result (named.new.items
        ≡ named.old.items ++ sectors_named (view log.old) entry.now) }
    ensures trimmed { D.honest (device_of log.old)
        → OnOk result (IsTrimmed (view log.old) entry.now) }
    ensures inside { OnOk result (AreInside first end named.new.items) }
    ensures damaged { D.honest (device_of log.old)
        → IfErr result (λ fault. IsDamage fault
        → IsTrimmed (view log.old) entry.now
        → AreInside first end (named.old.items ++ sectors_named (view log.old) entry.now) → ⊥) }
    ensures refused { IfErr result (λ fault. IsDamage fault
        ⊎ ((fault ≡ VolumeFault.Device) ⊎ (fault ≡ VolumeFault.Memory))) }
    ensures reads { OnlyReads log.old log.new }
    ensures failed { has_failed log.new ≡ device_failed result }
    ensures idle { has_failed log.old ≡ true → (log.new ≡ log.old) × IsErr result }
{
    if log.failed() {
        return Err(VolumeFault::Device);
    }
    survey_sectors(log, entry, first, end, named)?;
    if !ends_in_zeros(log, entry, end)? {
        return Err(VolumeFault::Damaged(Damage {
            sector: None,
            rule: Rule::LastBlock,
        }));
    }
    Ok(())
}

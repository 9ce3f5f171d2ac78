//! Reading a volume whole, and checking all rules on what it holds.

ghost use Rattle.std.specs.Prelude.{◌≡◌, ◌⊎◌, ◌≤◌, ◌<◌, ◌+◌, ℕ, IsTrue, IfOk, IfErr, false, length};
ghost use Rattle.vol_sector.specs.Fault.{device_failed, IsDamage};
ghost use Rattle.vol_log.specs.Log.{view, has_failed, device_of};
ghost use Rattle.vol_log.specs.Reading.{OnlyReads};
ghost use Rattle.vol_alloc.specs.Alloc.{first_of, end_of};
ghost use Rattle.vol_dirs.specs.Names.{slots_of, IsFree};
ghost use Rattle.vol_tree.specs.internal.Parts.{IsContent};
ghost use Rattle.vol_tree.specs.internal.Reads.{CanRead, HaveTree, HaveTreeSoon, HasParts};

use crate::reaching::{has_flag, lead_to_root, stand_in_directories};
use crate::reading::{Entries, read_entries};
use crate::superblock::Superblock;
use std::alloc::{AllocError, Global};
use vol_alloc::Alloc;
use vol_dirs::Dirs;
use vol_inode::Serial;
use vol_log::{FIRST_AFTER_LOG, Log};
use vol_sector::{Damage, Device, Rule, VolumeFault};

/// Whether the entries make a tree: the root is there, and each entry stands in a directory that
/// leads up to it.
fn make_a_tree(alloc: Global, found: &Entries) -> Result<bool, AllocError>
    requires some { 0 < length found.now.parents.items }
    requires few { length found.now.parents.items ≤ 1048576 }
    ensures yes { IfOk result (λ tree. IsTrue tree → HaveTree found.now) }
    ensures no { IfOk result (λ tree. HaveTreeSoon found.now → IsTrue tree) }
{
    if !has_flag(&found.directories, Serial::ROOT.number()) {
        return Ok(false);
    }
    if !stand_in_directories(&found.parents, &found.directories) {
        return Ok(false);
    }
    lead_to_root(alloc, &found.parents)
}

/// Which rule entries break that make no tree, and the slot where it shows, if it is a single one.
fn broken_tree(found: &Entries) -> Damage {
    if !has_flag(&found.directories, Serial::ROOT.number()) {
        return Damage {
            sector: Some(FIRST_AFTER_LOG),
            rule: Rule::Root,
        };
    }
    let mut slot = FIRST_AFTER_LOG;
    for parent in &found.parents {
        if *parent != 0 && !has_flag(&found.directories, *parent) {
            return Damage {
                sector: Some(slot),
                rule: Rule::Parent,
            };
        }
        slot = slot.saturating_add(1);
    }
    Damage {
        sector: None,
        rule: Rule::Ancestors,
    }
}

/// Reads all entries, holds their names, and checks what they name and where they stand. It gives
/// the free sectors, and how many sectors the files need by their sizes.
fn check_entries<D: Device>(
    alloc: Global,
    log: &mut Log<D>,
    numbers: &Superblock,
    dirs: &mut Dirs,
) -> Result<(Alloc, u32), VolumeFault>
    requires can { CanRead log.old numbers.now }
    requires slots { slots_of dirs.old ≡ numbers.now.slots }
    requires free { (s : ℕ) → IsFree dirs.old s }
    ensures slots { slots_of dirs.new ≡ slots_of dirs.old }
    ensures first { IfOk result (λ p. first_of p.0 ≡ FIRST_AFTER_LOG + numbers.now.slots) }
    ensures end { IfOk result (λ p. end_of p.0 ≡ numbers.now.sectors) }
    ensures parts { D.honest (device_of log.old)
        → IfOk result (λ p. HasParts (view log.old) numbers.now dirs.new p.0 p.1) }
    ensures damaged { D.honest (device_of log.old)
        → IfErr result (λ fault. IsDamage fault
        → IsContent (view log.old) numbers.now → ⊥) }
    ensures refused { IfErr result (λ fault. IsDamage fault
        ⊎ ((fault ≡ VolumeFault.Device) ⊎ (fault ≡ VolumeFault.Memory))) }
    ensures reads { OnlyReads log.old log.new }
    ensures failed { has_failed log.new ≡ device_failed result }
{
    let found = read_entries(alloc, log, numbers, dirs)?;
    if !make_a_tree(alloc, &found)? {
        return Err(VolumeFault::Damaged(broken_tree(&found)));
    }
    let first = FIRST_AFTER_LOG + numbers.slots;
    let sectors = Alloc::from_named(alloc, first, numbers.sectors, &found.named)?;
    Ok((sectors, found.reserved))
}

/// Reads the slots, the sectors that list others, and the last sectors of files, and checks all
/// rules on them. It gives the names, the free sectors, and how many sectors the files need by
/// their sizes.
///
/// It is refused as `Damaged` where a rule is broken, as `Device`, and as `Memory`.
pub(crate) fn read_parts<D: Device>(
    alloc: Global,
    log: &mut Log<D>,
    numbers: &Superblock,
) -> Result<(Dirs, Alloc, u32), VolumeFault>
    requires can { CanRead log.old numbers.now }
    ensures slots { IfOk result (λ p. slots_of p.0 ≡ numbers.now.slots) }
    ensures first { IfOk result (λ p. first_of p.1 ≡ FIRST_AFTER_LOG + numbers.now.slots) }
    ensures end { IfOk result (λ p. end_of p.1 ≡ numbers.now.sectors) }
    ensures parts { D.honest (device_of log.old)
        → IfOk result (λ p. HasParts (view log.old) numbers.now p.0 p.1 p.2) }
    ensures damaged { D.honest (device_of log.old)
        → IfErr result (λ fault. IsDamage fault
        → IsContent (view log.old) numbers.now → ⊥) }
    ensures refused { IfErr result (λ fault. IsDamage fault
        ⊎ ((fault ≡ VolumeFault.Device) ⊎ (fault ≡ VolumeFault.Memory))) }
    ensures reads { OnlyReads log.old log.new }
    ensures failed { has_failed log.new ≡ device_failed result }
{
    let mut dirs = Dirs::reserve(alloc, numbers.slots)?;
    let (sectors, reserved) = check_entries(alloc, log, numbers, &mut dirs)?;
    Ok((dirs, sectors, reserved))
}

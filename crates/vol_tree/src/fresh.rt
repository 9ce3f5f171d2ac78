//! New volumes that are open at once.

ghost use Rattle.std.specs.Prelude.{ℕ, ◌≡◌, ◌⊎◌, ◌≤◌, ◌<◌, ◌+◌, ◌↔◌, IfOk, IfErr, Err};
ghost use Rattle.vol_sector.specs.Disk.{Image, Leaves};
ghost use Rattle.vol_sector.specs.Past.{StillGoesOn};
ghost use Rattle.vol_sector.specs.Fault.{IsDamage};
ghost use Rattle.vol_alloc.specs.Alloc.{first_of, end_of};
ghost use Rattle.vol_dirs.specs.Names.{slots_of};
ghost use Rattle.vol_tree.specs.Superblock.{HasRanges};
ghost use Rattle.vol_tree.specs.Stands.{StandsAs, empty_tree};
ghost use Rattle.vol_tree.specs.Fresh.{fresh, IsNoneOrEmpty};
ghost use Rattle.vol_tree.specs.Handing.{IsNew, KeepsDevice, device_opened, is_device_refused};
ghost use Rattle.vol_tree.specs.internal.Formatting.{HasFreshSlots};
ghost use Rattle.vol_tree.specs.internal.Reads.{HasParts};

use crate::Volume;
use crate::formatting::root;
use crate::parts::Parts;
use crate::superblock::Superblock;
use std::alloc::Global;
use vol_alloc::Alloc;
use vol_dirs::Dirs;
use vol_inode::Version;
use vol_log::{FIRST_AFTER_LOG, Log};
use vol_sector::{Device, Refused, VolumeFault};

impl<D: Device> Volume<D> {
    /// Makes the first sectors of a device an empty volume, as `format` does, and opens it: of what
    /// was written only the log's header is read again.
    ///
    /// It is refused as `Geometry` and as `TooSmall` as `format` is, before any operation, and then
    /// as `Device` where an operation failed, and as `Memory`. A device that isn't honest may give
    /// another header than was written, which is refused as `Damaged`.
    ///
    /// A stop inside leaves what a crash could leave before, or no volume, or the empty one.
    pub fn create(
        alloc: Global,
        device: D,
        sectors: u32,
        slots: u32,
    ) -> Result<Volume<D>, Refused<D>>
        ensures geometry { (HasRanges (fresh sectors slots) → ⊥)
            ↔ (result ≡ Err (record { device = device; fault = VolumeFault.Geometry })) }
        ensures too_small { (HasRanges (fresh sectors slots) × (D.size device < sectors))
            ↔ (result ≡ Err (record { device = device; fault = VolumeFault.TooSmall })) }
        ensures otherwise { HasRanges (fresh sectors slots) → sectors ≤ D.size device
            → IfErr result (λ r. IsDamage r.fault
            ⊎ ((r.fault ≡ VolumeFault.Device) ⊎ (r.fault ≡ VolumeFault.Memory))) }
        ensures undamaged { D.honest device
            → IfErr result (λ r. IsDamage r.fault → ⊥) }
        ensures makes { IfOk result (IsNew D.honest D.disk D.size device (fresh sectors slots)) }
        // At any moment a crash leaves what it could leave before, or no volume, or the empty one.
        ensures crash { D.honest device → Leaves (D.disk device) (D.disk (device_opened result))
            (IsNoneOrEmpty (fresh sectors slots)) }
        // It is refused as `Device` only where an operation failed.
        ensures kept { KeepsDevice D.honest D.size D.failures device (device_opened result)
            (is_device_refused result) }
        ensures goes_on { (end : ℕ) → sectors ≤ end
            → StillGoesOn (D.goes_on end) device (device_opened result) }
    {
        let numbers = Superblock {
            version: Version::One,
            sectors,
            slots,
        };
        match Volume::format(device, sectors, slots) {
            Ok(device) => open_empty(alloc, device, numbers),
            Err(refused) => Err(refused),
        }
    }
}

/// Opens the empty volume that a device holds. Its slots aren't read.
fn open_empty<D: Device>(
    alloc: Global,
    device: D,
    numbers: Superblock,
) -> Result<Volume<D>, Refused<D>>
    requires ranges { HasRanges numbers }
    requires room { numbers.sectors ≤ D.size device }
    requires empty { D.honest device
        → StandsAs (D.disk device).seen numbers (empty_tree numbers.slots) }
    ensures refused { IfErr result (λ r. IsDamage r.fault
        ⊎ ((r.fault ≡ VolumeFault.Device) ⊎ (r.fault ≡ VolumeFault.Memory))) }
    ensures undamaged { D.honest device → IfErr result (λ r. IsDamage r.fault → ⊥) }
    ensures makes { IfOk result (IsNew D.honest D.disk D.size device numbers) }
    ensures crash { D.honest device → Leaves (D.disk device) (D.disk (device_opened result))
        (λ c. StandsAs c numbers (empty_tree numbers.slots)) }
    ensures kept { KeepsDevice D.honest D.size D.failures device (device_opened result)
        (is_device_refused result) }
    ensures goes_on { (end : ℕ) → numbers.sectors ≤ end
        → StillGoesOn (D.goes_on end) device (device_opened result) }
{
    let log = match Log::open(alloc, device, numbers.sectors) {
        Ok(log) => log,
        Err(refused) => return Err(refused),
    };
    match empty_parts(alloc, &numbers) {
        Ok((dirs, sectors)) => Ok(Volume::of_parts(Parts {
            log,
            dirs,
            sectors,
            numbers,
            reserved: 0, // the root needs no sector
        })),
        Err(fault) => Err(Refused {
            device: log.into_device(),
            fault,
        }),
    }
}

/// What is kept in memory of a volume that has only the root: its name, and that no data sector is
/// taken.
fn empty_parts(alloc: Global, numbers: &Superblock) -> Result<(Dirs, Alloc), VolumeFault>
    requires ranges { HasRanges numbers.now }
    ensures slots { IfOk result (λ p. slots_of p.0 ≡ numbers.now.slots) }
    ensures first { IfOk result (λ p. first_of p.1 ≡ FIRST_AFTER_LOG + numbers.now.slots) }
    ensures end { IfOk result (λ p. end_of p.1 ≡ numbers.now.sectors) }
    ensures parts { (content : Image) → HasFreshSlots numbers.now.slots content
        → IfOk result (λ p. HasParts content numbers.now p.0 p.1 0) }
    ensures refused { IfErr result (λ fault. fault ≡ VolumeFault.Memory) }
{
    let dirs = Dirs::of_root(alloc, numbers.slots, &root())?;
    let first = FIRST_AFTER_LOG + numbers.slots;
    let sectors = Alloc::from_named(alloc, first, numbers.sectors, &[])?;
    Ok((dirs, sectors))
}

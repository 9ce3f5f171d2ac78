//! New volumes.

ghost use Rattle.std.specs.Prelude.{◌≡◌, ◌≤◌, ◌<◌, ◌+◌, ◌↔◌, ℕ, OnOk, IfOk, IfErr, Err, is_err};
ghost use Rattle.vol_sector.specs.Disk.{After, Wrote, Leaves, Only, put, counted};
ghost use Rattle.vol_tree.specs.Superblock.{HasRanges};
ghost use Rattle.vol_tree.specs.Stands.{StandsAs, empty_tree};
ghost use Rattle.vol_tree.specs.Fresh.{fresh, fresh_as};
ghost use Rattle.vol_sector.specs.Past.{LeavesPast, StillGoesOn};
ghost use Rattle.vol_tree.specs.Handing.{KeepsDevice, device_formatted, is_device_refused};
ghost use Rattle.vol_tree.specs.internal.Formatting.{root_entry, fresh_slot, HasFreshSlots, IsFresh};
ghost use Rattle.vol_tree.specs.Fresh.{IsNoneOrEmpty};
ghost use Rattle.vol_tree.specs.internal.Formatting.{OnlyAfterLogChanges, OnlyAfterFrontChanges};

use crate::Volume;
use crate::layout::SUPERBLOCK;
use crate::superblock::{Superblock, has_ranges, write_superblock};
use vol_dirs::slot_sector;
use vol_inode::{Entry, Kind, Serial, Version, write_entry};
use vol_log::{FIRST_AFTER_LOG, HEADER};
use vol_sector::{Device, DeviceFault, Refused, Sector, VolumeFault};

impl<D: Device> Volume<D> {
    /// Makes the first sectors of a device an empty volume, of version 1, with these numbers of
    /// sectors and slots for entries.
    ///
    /// It is refused as `Geometry` where a number is out of its range: 137 to 65,536 sectors, 1 to
    /// 8,192 slots, and `122 + slots < sectors`; then as `TooSmall` where the device has fewer sectors.
    /// Both refusals come before any operation. It makes `slots + 3` writes and 3 syncs; where one
    /// fails it stops there, and is refused as `Device`. It takes no memory.
    ///
    /// A stop inside leaves what a crash could leave before, or no volume, or the empty one.
    pub fn format(device: D, sectors: u32, slots: u32) -> Result<D, Refused<D>>
        ensures geometry { (HasRanges (fresh sectors slots) → ⊥)
            ↔ (result ≡ Err (record { device = device; fault = VolumeFault.Geometry })) }
        ensures too_small { (HasRanges (fresh sectors slots) × (D.size device < sectors))
            ↔ (result ≡ Err (record { device = device; fault = VolumeFault.TooSmall })) }
        ensures otherwise { HasRanges (fresh sectors slots) → sectors ≤ D.size device
            → IfErr result (λ r. r.fault ≡ VolumeFault.Device) }
        // A crash now leaves what reads give, and that is the empty volume.
        ensures durable { D.honest device → IfOk result
            (λ d. Only (D.disk d).seen (D.disk d).may_leave) }
        ensures empty { D.honest device
            → IfOk result (λ d. StandsAs (D.disk d).seen (fresh sectors slots) (empty_tree slots)) }
        // At any moment a crash leaves what it could leave before, or no volume, or the empty one.
        ensures crash { D.honest device → Leaves (D.disk device)
            (D.disk (device_formatted result)) (IsNoneOrEmpty (fresh sectors slots)) }
        // What the device has past the volume's sectors stays, and none of it is written.
        ensures past { D.honest device
            → LeavesPast sectors (D.disk device) (D.disk (device_formatted result)) }
        // It is refused as `Device` only where an operation failed.
        ensures kept { KeepsDevice D.honest D.size D.failures device (device_formatted result)
            (is_device_refused result) }
        ensures goes_on { (end : ℕ) → sectors ≤ end
            → StillGoesOn (D.goes_on end) device (device_formatted result) }
    {
        Volume::format_as(device, Version::One, sectors, slots)
    }

    /// Makes the first sectors of a device an empty volume of this version, with these numbers of
    /// sectors and slots for entries.
    ///
    /// It is refused as `Geometry` where a number is out of its range: 137 to 65,536 sectors (in
    /// version 4 to 16,777,216), 1 to 8,192 slots (1,048,576), and `122 + slots < sectors`; then as
    /// `TooSmall` where the device has fewer sectors.
    /// Both refusals come before any operation. It makes `slots + 3` writes and 3 syncs; where one
    /// fails it stops there, and is refused as `Device`. It takes no memory.
    ///
    /// A stop inside leaves what a crash could leave before, or no volume, or the empty one.
    pub fn format_as(
        mut device: D,
        version: Version,
        sectors: u32,
        slots: u32,
    ) -> Result<D, Refused<D>>
        ensures geometry { (HasRanges (fresh_as version sectors slots) → ⊥)
            ↔ (result ≡ Err (record { device = device; fault = VolumeFault.Geometry })) }
        ensures too_small { (HasRanges (fresh_as version sectors slots) × (D.size device < sectors))
            ↔ (result ≡ Err (record { device = device; fault = VolumeFault.TooSmall })) }
        ensures otherwise { HasRanges (fresh_as version sectors slots) → sectors ≤ D.size device
            → IfErr result (λ r. r.fault ≡ VolumeFault.Device) }
        // A crash now leaves what reads give, and that is the empty volume.
        ensures durable { D.honest device → IfOk result
            (λ d. Only (D.disk d).seen (D.disk d).may_leave) }
        ensures empty { D.honest device → IfOk result
            (λ d. StandsAs (D.disk d).seen (fresh_as version sectors slots) (empty_tree slots)) }
        // At any moment a crash leaves what it could leave before, or no volume, or the empty one.
        ensures crash { D.honest device → Leaves (D.disk device)
            (D.disk (device_formatted result)) (IsNoneOrEmpty (fresh_as version sectors slots)) }
        // What the device has past the volume's sectors stays, and none of it is written.
        ensures past { D.honest device
            → LeavesPast sectors (D.disk device) (D.disk (device_formatted result)) }
        // It is refused as `Device` only where an operation failed.
        ensures kept { KeepsDevice D.honest D.size D.failures device (device_formatted result)
            (is_device_refused result) }
        ensures goes_on { (end : ℕ) → sectors ≤ end
            → StillGoesOn (D.goes_on end) device (device_formatted result) }
    {
        let numbers = Superblock {
            version,
            sectors,
            slots,
        };
        if !has_ranges(&numbers) {
            return Err(Refused {
                device,
                fault: VolumeFault::Geometry,
            });
        }
        if device.sectors() < sectors {
            return Err(Refused {
                device,
                fault: VolumeFault::TooSmall,
            });
        }
        match lay_out(&mut device, &numbers) {
            Ok(()) => Ok(device),
            Err(DeviceFault) => Err(Refused {
                device,
                fault: VolumeFault::Device,
            }),
        }
    }
}

/// Writes the empty volume. The superblock goes first and comes back last.
fn lay_out<D: Device>(device: &mut D, numbers: &Superblock) -> Result<(), DeviceFault>
    requires ranges { HasRanges numbers.now }
    requires room { numbers.now.sectors ≤ D.size device.old }
    ensures durable { D.honest device.old
        → OnOk result (Only (D.disk device.new).seen (D.disk device.new).may_leave) }
    ensures empty { D.honest device.old → OnOk result (StandsAs (D.disk device.new).seen
        numbers.now (empty_tree numbers.now.slots)) }
    ensures crash { D.honest device.old
        → Leaves (D.disk device.old) (D.disk device.new) (IsNoneOrEmpty numbers.now) }
    ensures goes_on { (end : ℕ) → numbers.now.sectors ≤ end
        → StillGoesOn (D.goes_on end) device.old device.new }
    ensures honest { D.honest device.old ↔ D.honest device.new }
    ensures size { D.size device.new ≡ D.size device.old }
    ensures failures { D.failures device.new ≡ counted (is_err result) (D.failures device.old) }
{
    write_first(device, &[0; 512])?; // nothing is a volume while the slots are written
    write_after_front(device, numbers.slots)?;
    write_first(device, &write_superblock(numbers))
}

/// Writes the first sector, and syncs.
fn write_first<D: Device>(device: &mut D, image: &Sector) -> Result<(), DeviceFault>
    requires { 0 < D.size device.old }
    ensures durable { D.honest device.old
        → OnOk result (Only (D.disk device.new).seen (D.disk device.new).may_leave) }
    ensures written { D.honest device.old
        → OnOk result ((D.disk device.new).seen ≡ put 0 image.now (D.disk device.old).seen) }
    ensures crash { D.honest device.old → Leaves (D.disk device.old) (D.disk device.new)
        (After (Wrote 0 image.now) (D.disk device.old).may_leave) }
    ensures goes_on { (end : ℕ) → 0 < end → StillGoesOn (D.goes_on end) device.old device.new }
    ensures honest { D.honest device.old ↔ D.honest device.new }
    ensures size { D.size device.new ≡ D.size device.old }
    ensures failures { D.failures device.new ≡ counted (is_err result) (D.failures device.old) }
{
    device.write(SUPERBLOCK, image)?;
    device.sync()
}

/// Writes an empty log and only the root, and syncs.
fn write_after_front<D: Device>(device: &mut D, slots: u32) -> Result<(), DeviceFault>
    requires few { slots ≤ 1048576 }
    requires room { FIRST_AFTER_LOG + slots ≤ D.size device.old }
    ensures durable { D.honest device.old
        → OnOk result (Only (D.disk device.new).seen (D.disk device.new).may_leave) }
    ensures written { D.honest device.old → OnOk result (IsFresh slots (D.disk device.new).seen) }
    ensures first { D.honest device.old
        → OnlyAfterFrontChanges (D.disk device.old).seen (D.disk device.new).seen }
    ensures crash { D.honest device.old → Leaves (D.disk device.old) (D.disk device.new)
        (After OnlyAfterFrontChanges (D.disk device.old).may_leave) }
    ensures goes_on { (end : ℕ) → FIRST_AFTER_LOG + slots ≤ end
        → StillGoesOn (D.goes_on end) device.old device.new }
    ensures honest { D.honest device.old ↔ D.honest device.new }
    ensures size { D.size device.new ≡ D.size device.old }
    ensures failures { D.failures device.new ≡ counted (is_err result) (D.failures device.old) }
{
    device.write(HEADER, &[0; 512])?;
    write_slots(device, slots)?;
    device.sync() // the slots are on the disk before the superblock names them
}

/// Writes the slots: the root, and after it slots that aren't used.
fn write_slots<D: Device>(device: &mut D, slots: u32) -> Result<(), DeviceFault>
    requires few { slots ≤ 1048576 }
    requires room { FIRST_AFTER_LOG + slots ≤ D.size device.old }
    ensures written { D.honest device.old
        → OnOk result (HasFreshSlots slots (D.disk device.new).seen) }
    ensures beside { D.honest device.old
        → OnlyAfterLogChanges (D.disk device.old).seen (D.disk device.new).seen }
    ensures crash { D.honest device.old → Leaves (D.disk device.old) (D.disk device.new)
        (After OnlyAfterLogChanges (D.disk device.old).may_leave) }
    ensures goes_on { (end : ℕ) → FIRST_AFTER_LOG + slots ≤ end
        → StillGoesOn (D.goes_on end) device.old device.new }
    ensures honest { D.honest device.old ↔ D.honest device.new }
    ensures size { D.size device.new ≡ D.size device.old }
    ensures failures { D.failures device.new ≡ counted (is_err result) (D.failures device.old) }
{
    for s in 0..slots {
        device.write(slot_sector(Serial::new(s + 1)), &fresh_slot(s))?;
    }
    Ok(())
}

/// The sector of a slot of a new volume.
fn fresh_slot(s: u32) -> Sector
    ensures { result ≡ fresh_slot s }
{
    if s == 0 {
        write_entry(&root())
    } else {
        [0; 512]
    }
}

/// The root.
pub(crate) fn root() -> Entry
    ensures { result ≡ root_entry }
{
    Entry {
        kind: Kind::Directory,
        name_length: 0,
        parent: 0,
        size: 0,
        name: [0; 255],
        pointers: [0; 61],
    }
}

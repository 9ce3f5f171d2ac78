//! Opening the volume that a device holds.

ghost use Rattle.std.specs.Prelude.{ℕ, ◌≡◌, ◌⊎◌, ◌≤◌, ◌<◌, ◌↔◌, IfOk, IfErr, Err};
ghost use Rattle.vol_sector.specs.Disk.{Leaves, counted};
ghost use Rattle.vol_sector.specs.Past.{StillGoesOn};
ghost use Rattle.vol_sector.specs.Fault.{device_failed, IsDamage};
ghost use Rattle.vol_tree.specs.Superblock.{superblock, HasRanges};
ghost use Rattle.vol_tree.specs.Opening.{NoVolumeOn, HasNoVersion, BeginsRight, IsDamaged};

use crate::layout::SUPERBLOCK;
use crate::superblock::{Superblock, read_superblock};
use vol_sector::{Damage, Device, Rule, VolumeFault};

// The sectors of the smallest volume.
const LEAST_SECTORS: u32 = 137;

/// Reads the numbers of the volume from its first sector, and sees that the device has its sectors.
// So many clauses in three groups: what stands at success (`ranges` to `begins`), when each refusal comes
// (`not_a_volume` to `refused`), and that the device stays as it was (`seen` to `failures`).
pub(crate) fn read_front<D: Device>(device: &mut D) -> Result<Superblock, VolumeFault>
    ensures ranges { IfOk result HasRanges }
    ensures room { IfOk result (λ v. v.sectors ≤ D.size device.old) }
    ensures front { D.honest device.old
        → IfOk result (λ v. (D.disk device.old).seen 0 ≡ superblock v) }
    ensures begins { D.honest device.old
        → IfOk result (λ v. BeginsRight (D.size device.old) (D.disk device.old).seen) }
    ensures not_a_volume { D.honest device.old → IfErr result (λ fault.
        fault ≡ VolumeFault.NotAVolume → NoVolumeOn (D.size device.old) (D.disk device.old).seen) }
    ensures version { D.honest device.old → IfErr result (λ fault.
        fault ≡ VolumeFault.Version → HasNoVersion (D.size device.old) (D.disk device.old).seen) }
    ensures damaged { D.honest device.old → IfErr result (λ fault.
        IsDamage fault → IsDamaged (D.size device.old) (D.disk device.old).seen) }
    ensures few_sectors { D.size device.old < 137
        → (device.new ≡ device.old) × (result ≡ Err VolumeFault.NotAVolume) }
    ensures refused { IfErr result (λ fault. (fault ≡ VolumeFault.NotAVolume)
        ⊎ ((fault ≡ VolumeFault.Version) ⊎ (IsDamage fault
        ⊎ (fault ≡ VolumeFault.Device)))) }
    ensures seen { D.honest device.old → (D.disk device.new).seen ≡ (D.disk device.old).seen }
    ensures crash { D.honest device.old
        → Leaves (D.disk device.old) (D.disk device.new) (λ c. ⊥) }
    ensures honest { D.honest device.old ↔ D.honest device.new }
    ensures size { D.size device.new ≡ D.size device.old }
    ensures goes_on { (end : ℕ) → StillGoesOn (D.goes_on end) device.old device.new }
    ensures failures { D.failures device.new ≡ counted (device_failed result)
        (D.failures device.old) }
{
    if device.sectors() < LEAST_SECTORS {
        return Err(VolumeFault::NotAVolume);
    }
    let image = device.read(SUPERBLOCK)?;
    let numbers = read_superblock(&image)?;
    if device.sectors() < numbers.sectors {
        return Err(VolumeFault::Damaged(Damage {
            sector: Some(SUPERBLOCK),
            rule: Rule::DeviceSize,
        }));
    }
    Ok(numbers)
}

//! Bringing an open volume to a newer version.

ghost use Rattle.std.specs.Prelude.{◌≡◌, [], Err, IfErr, false, is_err};
ghost use Rattle.vol_log.specs.Log.{staged_of, has_failed};

use crate::parts::Parts;
use crate::superblock::{Superblock, version_number, write_superblock};
use vol_inode::Version;
use vol_sector::{Device, DeviceFault, VolumeFault};

impl<D: Device> Parts<D> {
    ghost use Rattle.vol_tree.specs.internal.Parts.{IsOpen};
    ghost use Rattle.vol_tree.specs.internal.Upgrades.{Upgrades};
    ghost use Rattle.vol_tree.specs.Superblock.{IsOlder};

    /// Commits what is staged, and makes the volume one of this version, where that is newer.
    pub fn upgrade(&mut self, to: Version) -> Result<(), VolumeFault>
        requires is_open { IsOpen self.old }
        ensures newest { (IsOlder self.old.numbers.version to → ⊥)
            → (self.new ≡ self.old) × (result ≡ Err VolumeFault.Upgraded) }
        ensures upgrades { IsOlder self.old.numbers.version to
            → Upgrades to self.old self.new (is_err result) }
        ensures refused { IsOlder self.old.numbers.version to
            → IfErr result (λ fault. fault ≡ VolumeFault.Device) }
    {
        if version_number(to) <= version_number(self.numbers.version) {
            return Err(VolumeFault::Upgraded);
        }
        self.commit()?;
        self.write_version(to)?;
        Ok(())
    }

    /// Writes the first sector of a volume of this version.
    fn write_version(&mut self, to: Version) -> Result<(), DeviceFault>
        requires is_open { IsOpen self.old }
        requires working { has_failed self.old.log ≡ false }
        requires empty { staged_of self.old.log ≡ [] }
        requires version { IsOlder self.old.numbers.version to }
        ensures { Upgrades to self.old self.new (is_err result) }
    {
        let numbers = Superblock {
            version: to,
            sectors: self.numbers.sectors,
            slots: self.numbers.slots,
        };
        self.log.write_front(&write_superblock(&numbers))?;
        self.numbers = numbers;
        Ok(())
    }
}

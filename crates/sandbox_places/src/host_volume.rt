//! A volume in a file of the system.

ghost use Rattle.std.specs.Prelude.{length};
ghost use Rattle.vol_sector.specs.Past.{LeavesPast};
ghost use Rattle.vol_sector.specs.internal.PastLaws.{past_same, past_then};
ghost use Rattle.sandbox_device.specs.File.{kept, KeepsItsModel};
ghost use Rattle.sandbox_device.specs.internal.FileLaws.{mixed_since, mixed_now, now_may_stay};

use sandbox_device::FileDevice;
use vol_sector::{Device, DeviceFault, Sector};

/// A file that a command line names, as the device of a volume: what is promised of a `FileDevice` is promised of it.
#[derive(Drop)]
pub struct HostVolume {
    pub device: FileDevice,
}

impl Device for HostVolume {
    ghost disk = { λ d. kept d.device.sectors d.device.moments.unsynced d.device.moments.times };

    ghost honest = { λ d. KeepsItsModel d.device.file };

    ghost size = { λ d. length d.device.sectors };

    ghost failures = { λ d. d.device.failures };

    ghost goes_on = { λ end first later.
        LeavesPast end (kept first.device.sectors first.device.moments.unsynced first.device.moments.times)
        (kept later.device.sectors later.device.moments.unsynced later.device.moments.times) };

    ghost counts_now = { λ d t c h le may.
        mixed_since d.device.sectors d.device.moments.unsynced d.device.moments.times t c may };

    ghost only_now = { λ d c h left.
        mixed_now d.device.sectors d.device.moments.unsynced d.device.moments.times c left };

    ghost may_stay = { λ d h. now_may_stay d.device.sectors d.device.moments.unsynced };

    ghost begins = { λ end d. past_same end
        (kept d.device.sectors d.device.moments.unsynced d.device.moments.times) };

    ghost goes_further = { λ end a b c one two. past_then end _ _ _ one two };

    ghost leaves_past = { λ end first later h from. from };

    fn sectors(&self) -> u32 {
        self.device.sectors()
    }

    fn failures(&self) -> u64 {
        self.device.failures()
    }

    fn read(&mut self, n: u32) -> Result<Sector, DeviceFault> {
        self.device.read(n)
    }

    fn write(&mut self, n: u32, image: &Sector) -> Result<(), DeviceFault> {
        self.device.write(n, image)
    }

    fn sync(&mut self) -> Result<(), DeviceFault> {
        self.device.sync()
    }
}

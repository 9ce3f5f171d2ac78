//! A device in memory.

ghost use Rattle.std.specs.Prelude.{◌≡◌, ◌<◌, ◌≤◌, IfErr, IfOk, OnOk, length, refl, replicate};
ghost use Rattle.std.specs.Io.KnownBytes.{Appends};
ghost use Rattle.vol_sector.specs.Past.{LeavesPast};
ghost use Rattle.vol_sector.specs.Record.{image_of};
ghost use Rattle.vol_sector.specs.internal.PastLaws.{past_same, past_then};
ghost use Rattle.sandbox_device.specs.File.{IsOfSize};
ghost use Rattle.sandbox_device.specs.FileEvidence.{AreRead, IsNoDevice, WasRead, WasRefused};
ghost use Rattle.sandbox_device.specs.Ram.{joined_sectors, held};
ghost use Rattle.sandbox_device.specs.internal.RamLaws.{now_is_since, now_is_all};

use crate::file_device::whole_sectors;
use crate::past::Past;
use crate::sectors::Sectors;
use std::alloc::{AllocError, Global};
use std::fs::File;
use std::io;
use std::io::Write;
use vol_sector::{Device, DeviceFault, Sector};

/// Sectors in memory. No operation fails, and each write lasts at once. It keeps no record. The room for all is
/// reserved when it is made, and a sector that is zeros ever since isn't touched.
#[derive(Drop)]
pub struct RamDevice {
    sectors: Sectors,
    past: Past,
}

impl RamDevice {
    ghost use Rattle.std.specs.Prelude.{◌∷◌};

    /// A device of this many sectors of zeros. It fails only where memory is refused.
    pub fn new(alloc: Global, sectors: u32) -> Result<RamDevice, AllocError>
        ensures sectors { IfOk result (λ d. length d.sectors ≡ sectors) }
        ensures zeros { IfOk result (λ d. d.sectors ≡ replicate sectors (replicate 512 0)) }
    {
        Ok(RamDevice {
            sectors: Sectors::zeros(alloc, sectors)?,
            past: Past::new(),
        })
    }

    /// A device of these sectors. It fails only where memory is refused.
    pub fn of(alloc: Global, sectors: &[Sector]) -> Result<RamDevice, AllocError>
        requires { length sectors.now ≤ 16777216 }
        ensures { IfOk result (λ d. d.sectors ≡ sectors.now) }
    {
        Ok(RamDevice {
            sectors: Sectors::of(alloc, sectors)?,
            past: Past::new(),
        })
    }

    /// A device of a file's whole sectors, 65,536 at most, or 16,777,216 where it begins as a volume of version 4, as they are now;
    /// nothing is written to the file. It fails where it can't be read, where it is a directory, and where memory is refused.
    pub fn of_file(alloc: Global, file: &File) -> io::Result<RamDevice>
        ensures few { IfOk result (λ d. length d.sectors ≤ 16777216) }
        ensures sized { IfOk result (λ d. IsOfSize 65536 d.sectors) }
        ensures read { IfOk result (λ d. AreRead WasRead file.now d.sectors) }
        ensures refused { IfErr result (IsNoDevice WasRefused file.now) }
    {
        Ok(RamDevice {
            sectors: whole_sectors(alloc, file, 0)?,
            past: Past::new(),
        })
    }

    /// Writes the bytes of all its sectors, one after the other.
    pub fn write_to<W: Write>(&self, out: &mut W) -> io::Result<()>
        ensures { OnOk result (Appends (W.contents out.old) (W.contents out.new)
            (joined_sectors self.now.sectors)) }
    {
        for n in 0..self.sectors.len() as u32 {
            out.write_all(&self.sectors.get(n))?;
        }
        Ok(())
    }

    /// The bytes of a sector.
    pub fn sector(&self, n: u32) -> Sector
        requires { n < length self.now.sectors }
        ensures { result ≡ image_of self.now.sectors n }
    {
        self.sectors.get(n)
    }

    /// Its sectors before each operation, after one more.
    fn next_past(&self) -> Past
        ensures { result.images ≡ self.now.sectors ∷ self.now.past.images }
    {
        Past {}
    }
}

impl Device for RamDevice {
    ghost disk = { λ d. held d.sectors d.past.images };

    ghost honest = { λ d. Unit {0} };

    ghost size = { λ d. length d.sectors };

    ghost failures = { λ d. 0 };

    ghost goes_on = { λ end first later.
        LeavesPast end (held first.sectors first.past.images) (held later.sectors later.past.images) };

    ghost counts_now = { λ d t c h le may. now_is_since d.sectors d.past.images t c may };

    ghost only_now = { λ d c h left. now_is_all d.sectors d.past.images c left };

    ghost may_stay = { λ d h. refl };

    ghost begins = { λ end d. past_same end (held d.sectors d.past.images) };

    ghost goes_further = { λ end a b c one two. past_then end _ _ _ one two };

    ghost leaves_past = { λ end first later h from. from };

    fn sectors(&self) -> u32 {
        self.sectors.len() as u32
    }

    fn failures(&self) -> u64 {
        0
    }

    fn read(&mut self, n: u32) -> Result<Sector, DeviceFault> {
        self.past = self.next_past();
        Ok(self.sectors.get(n))
    }

    fn write(&mut self, n: u32, image: &Sector) -> Result<(), DeviceFault> {
        self.past = self.next_past();
        self.sectors.put(n, image);
        Ok(())
    }

    fn sync(&mut self) -> Result<(), DeviceFault> {
        self.past = self.next_past();
        Ok(())
    }
}

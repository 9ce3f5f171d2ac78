//! A file of sectors, by the calls that a device makes of it.

ghost use Rattle.std.specs.Prelude.{◌↔◌, ◌+◌, ◌<◌, ℕ, List, MatchResult, OnErr, OnOk, length};
ghost use Rattle.vol_sector.specs.Record.{image_of};

use std::fs::File;
use std::io;
use std::os::unix::fs::FileExt;
use vol_sector::Sector;

/// Bytes of a sector.
const SECTOR: u64 = 512;

/// What a device needs of a file, and no more. Sectors of 512 bytes are numbered from 0, read in pieces, and written one at a time.
///
/// What became of the file is known by evidence alone: a caller that is proved for all files can show only by a call which succeeded
/// that bytes were written, that they were synced, that the file was locked or measured, and only by one which failed that it refused.
pub trait SectorFile {
    /// The file keeps the model of a device. What is said of contents holds only then.
    ghost honest: { Self → Type 0 };

    /// Between these states these bytes were written to the sector with this number.
    ghost wrote: { Self → ℕ → List ℕ → Self → Type 0 };

    /// Between these states what was written before was made to last.
    ghost synced: { Self → Self → Type 0 };

    /// Between these states a call failed.
    ghost refused: { Self → Self → Type 0 };

    /// The file was found to have this many whole sectors.
    ghost measured: { Self → ℕ → Type 0 };

    /// The file had these bytes in the sector with this number, when it was read.
    ghost gave: { Self → ℕ → List ℕ → Type 0 };

    /// The file was locked, against all that ask for its lock.
    ghost locked: { Self → Type 0 };

    /// Takes its lock. It fails where another use of the file has it.
    fn take_lock(&self) -> io::Result<()>
        ensures { MatchResult result (λ _. locked self.now) (λ _. refused self.now self.now) };

    /// How many whole sectors it has by now.
    fn sectors(&self) -> io::Result<u64>
        ensures { MatchResult result (λ n. measured self.now n) (λ _. refused self.now self.now) };

    /// Gives it this many sectors, where it has fewer. What it has stays.
    fn lengthen(&self, sectors: u32) -> io::Result<()>
        ensures { OnErr result (refused self.now self.now) };

    /// Reads sectors from one on.
    fn read_into(&self, first: u32, images: &mut [Sector]) -> io::Result<()>
        ensures gave { OnOk result ((n : ℕ) → n < length images.new → gave self.now (first + n) (image_of images.new n)) }
        ensures refused { OnErr result (refused self.now self.now) };

    /// Writes a sector.
    fn write(&mut self, n: u32, image: &Sector) -> io::Result<()>
        ensures told { MatchResult result (λ _. wrote self.old n image.now self.new)
            (λ _. refused self.old self.new) }
        ensures honest { honest self.old ↔ honest self.new };

    /// Makes last what was written.
    fn sync(&mut self) -> io::Result<()>
        ensures told { MatchResult result (λ _. synced self.old self.new)
            (λ _. refused self.old self.new) }
        ensures honest { honest self.old ↔ honest self.new };
}

impl SectorFile for File {
    ghost use Rattle.sandbox_device.specs.File.{KeepsItsModel};
    ghost use Rattle.sandbox_device.specs.FileEvidence.{WasLocked, WasMeasured, WasRead, WasRefused, WasSynced, WasWritten};

    ghost honest = { KeepsItsModel };

    ghost wrote = { WasWritten };

    ghost synced = { WasSynced };

    ghost refused = { WasRefused };

    ghost measured = { WasMeasured };

    ghost gave = { WasRead };

    ghost locked = { WasLocked };

    fn take_lock(&self) -> io::Result<()> {
        self.try_lock()?;
        Ok(())
    }

    fn sectors(&self) -> io::Result<u64> {
        Ok(self.metadata()?.len() / SECTOR)
    }

    fn lengthen(&self, sectors: u32) -> io::Result<()> {
        self.set_len(u64::from(sectors) * SECTOR)
    }

    fn read_into(&self, first: u32, images: &mut [Sector]) -> io::Result<()> {
        self.read_exact_at(images.as_flattened_mut(), u64::from(first) * SECTOR)
    }

    fn write(&mut self, n: u32, image: &Sector) -> io::Result<()> {
        self.write_all_at(image, u64::from(n) * SECTOR)
    }

    fn sync(&mut self) -> io::Result<()> {
        self.sync_data()
    }
}

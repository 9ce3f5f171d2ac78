//! A device in a file of the system.

ghost use Rattle.std.specs.Prelude.{◌≡◌, ◌+◌, ◌^◌, ◌<◌, ◌≤◌, ◌↔◌, ◌⊎◌, ℕ, IfErr, IfOk, IsTrue, OnErr, OnOk, MatchResult, is_err, length, max, min, true};
ghost use Rattle.vol_sector.specs.Disk.{counted, put, After, Keeps, Leaves, OneMore, Only, Wrote};
ghost use Rattle.vol_sector.specs.Past.{LeavesPast, StillGoesOn};
ghost use Rattle.vol_sector.specs.Record.{image_of};
ghost use Rattle.vol_sector.specs.internal.PastLaws.{past_same, past_then};
ghost use Rattle.sandbox_device.specs.File.{BeginsWith, IsOfSize, kept, version_4};
ghost use Rattle.sandbox_device.specs.FileEvidence.{AreRead, AreReadTo, IsLongAs, IsNoDevice, IsSettled, IsShorter, IsUnsettled, WasLocked};
ghost use Rattle.sandbox_device.specs.Named.{IsHindered, WasOpened};
ghost use Rattle.sandbox_device.specs.Opening.{StandsApart};
ghost use Rattle.sandbox_device.specs.internal.FileLaws.{mixed_since, mixed_now, now_may_stay};

use crate::identity::refuse_where_replaced;
use crate::moments::Moments;
use crate::opening::open_apart;
use crate::sector_file::SectorFile;
use crate::sectors::Sectors;
use std::alloc::Global;
use std::fs::{File, OpenOptions};
use std::io;
use std::io::ErrorKind;
use std::rt::Files;
use vol_sector::{Device, DeviceFault, Sector};

/// The sectors that a device has at most. What a file has after them is never read or written.
const MOST_SECTORS: u32 = 16_777_216;

/// The same of a file that doesn't begin as a volume of version 4, where no more are wanted.
const MOST_OF_OLDER: u32 = 65_536;

/// What a volume of version 4 begins with: the magic bytes, and its version.
const VERSION_4: [u8; 12] = *b"WASMVOLU\x04\0\0\0";

/// An open file as a device: sector n is the 512 bytes from `512 * n` on.
///
/// Its sectors are read when it is opened, and are kept in memory: a read gives what stands there,
/// and a write goes there and to the file. So what reads give is known, whatever the file does. What
/// a crash leaves of the file is known by the premise that it keeps its model, of which nothing is
/// shown. A sync makes the file's bytes and its size last, but not its time stamps.
#[derive(Drop)]
pub struct FileDevice<F = File> {
    file: F,
    sectors: Sectors,
    failures: u64,
    moments: Moments,
    ghost few: { length sectors ≤ 16777216 },
}

/// How many sectors are read from a file at once.
const PIECE: u32 = 64;

/// Whether sectors begin as a volume of version 4.
fn begins_as_version_4(sectors: &[Sector]) -> bool
    ensures { IsTrue result → BeginsWith version_4 sectors.now }
{
    match sectors.first() {
        Some(image) => &image[..12] == VERSION_4.as_slice(),
        None => false,
    }
}

/// How many of the whole sectors that a file has are a device's: 65,536 at most, or as many as are wanted, or all where it begins as
/// a volume of version 4. (So that a long file that is no such volume isn't read whole to be refused.)
fn count_of(there: u32, wanted: u32, beginning: &[Sector]) -> u32
    ensures few { result ≤ there }
    ensures enough { min there (max wanted 65536) ≤ result }
    ensures sized { result ≤ max wanted 65536 ⊎ BeginsWith version_4 beginning.now }
{
    let most = wanted.max(MOST_OF_OLDER);
    if there <= most || begins_as_version_4(beginning) {
        return there;
    }
    most
}

/// Reads further sectors of a file, from one on.
fn read_piece<F: SectorFile>(
    file: &F,
    first: u32,
    images: &mut [Sector],
    sectors: &mut Sectors,
) -> io::Result<()>
    requires fit { first + length images.old ≤ length sectors.old }
    requires small { first + length images.old < 2 ^ 32 }
    requires read { AreReadTo F.gave file.now first sectors.old }
    ensures read { OnOk result (AreReadTo F.gave file.now (first + length images.old) sectors.new) }
    ensures refused { OnErr result (F.refused file.now file.now) }
    ensures count { length sectors.new ≡ length sectors.old }
    ensures begins { 0 < first → image_of sectors.new 0 ≡ image_of sectors.old 0 }
{
    file.read_into(first, images)?;
    sectors.put_all(first, images);
    Ok(())
}

/// The first sectors of a file, of which those that it begins with are read already. What is zeros there takes no memory.
fn read_sectors<F: SectorFile>(
    alloc: Global,
    file: &F,
    beginning: &[Sector],
    count: u32,
) -> io::Result<Sectors>
    requires within { length beginning.now ≤ count }
    requires read { AreRead F.gave file.now beginning.now }
    ensures count { IfOk result (λ s. length s ≡ count) }
    ensures read { IfOk result (AreRead F.gave file.now) }
    ensures begins { IfOk result (λ s. 0 < length beginning.now
        → image_of s 0 ≡ image_of beginning.now 0) }
    ensures refused { IfErr result (IsNoDevice F.refused file.now) }
{
    let mut sectors = Sectors::zeros(alloc, count)?;
    sectors.put_all(0, beginning);
    let mut piece = [[0; 512]; PIECE as usize];
    let mut first = beginning.len() as u32;
    while first < count {
        let more = (count - first).min(PIECE);
        read_piece(file, first, &mut piece[..more as usize], &mut sectors)?;
        first += more;
    }
    Ok(sectors)
}

/// The whole sectors of a file, as many as `count_of` says.
pub(crate) fn whole_sectors<F: SectorFile>(
    alloc: Global,
    file: &F,
    wanted: u32,
) -> io::Result<Sectors>
    ensures few { IfOk result (λ s. length s ≤ 16777216) }
    ensures sized { IfOk result (λ s. IsOfSize (max wanted 65536) s) }
    ensures measured { IfOk result (IsLongAs F.measured (max wanted 65536) file.now) }
    ensures read { IfOk result (AreRead F.gave file.now) }
    ensures refused { IfErr result (IsNoDevice F.refused file.now) }
{
    let there = file.sectors()?.min(u64::from(MOST_SECTORS)) as u32;
    let mut piece = [[0; 512]; PIECE as usize];
    let beginning = &mut piece[..there.min(PIECE) as usize];
    file.read_into(0, beginning)?;
    let count = count_of(there, wanted, beginning);
    read_sectors(alloc, file, beginning, count)
}

/// Locks a file that was opened under this name. It fails where it is locked, and where another file has come in its place
/// before it was.
fn locked<R: Files>(files: &R, file: File, path: &str) -> io::Result<File>
    requires { WasOpened path.now file }
    ensures same { IfOk result (λ it. it ≡ file) }
    ensures locked { IfOk result WasLocked }
    ensures refused { OnErr result (IsHindered path.now) }
{
    file.take_lock()?;
    refuse_where_replaced(files, path, &file)?;
    Ok(file)
}

/// Makes last what was written to a file, and asks whether it still has all of its sectors.
fn settle<F: SectorFile>(file: &mut F, sectors: usize) -> io::Result<()>
    ensures told { MatchResult result (λ _. IsSettled F.synced F.measured sectors file.old file.new)
        (λ _. IsUnsettled F.refused F.synced F.measured sectors file.old file.new) }
    ensures honest { F.honest file.old ↔ F.honest file.new }
{
    file.sync()?;
    if file.sectors()? < sectors as u64 {
        return Err(io::Error::from(ErrorKind::UnexpectedEof));
    }
    Ok(())
}

impl FileDevice {
    /// Opens a file to read and write, and locks it. It fails where there is no such file, where it may not be written,
    /// where it is a directory, where it is locked, by this process too, and where another file has come in its place.
    pub fn lock<R: Files<File = File>>(files: &R, path: &str) -> io::Result<File>
        ensures apart { IfOk result StandsApart }
        ensures opened { IfOk result (WasOpened path.now) }
        ensures locked { IfOk result WasLocked }
        ensures refused { OnErr result (IsHindered path.now) }
    {
        let mut how = OpenOptions::new();
        how.read(true).write(true);
        let file = open_apart(files, &how, path)?;
        locked(files, file, path)
    }

    /// Opens and locks a file as `lock` does, but makes it where it isn't there.
    pub fn lock_or_make<R: Files<File = File>>(files: &R, path: &str) -> io::Result<File>
        ensures apart { IfOk result StandsApart }
        ensures opened { IfOk result (WasOpened path.now) }
        ensures locked { IfOk result WasLocked }
        ensures refused { OnErr result (IsHindered path.now) }
    {
        let mut how = OpenOptions::new();
        how.read(true).write(true).create(true);
        let made = open_apart(files, &how, path)?;
        locked(files, made, path)
    }
}

impl<F: SectorFile + Drop> FileDevice<F> {
    /// A device of a file as `of` makes one, but the file is lengthened to this many sectors first, or to 16,777,216 where that is
    /// less, and the device has them. What the file has stays.
    pub fn lengthened(alloc: Global, file: F, sectors: u32) -> io::Result<FileDevice<F>>
        ensures few { IfOk result (λ d. length d.sectors ≤ 16777216) }
        ensures sized { IfOk result (λ d. IsOfSize (max sectors 65536) d.sectors) }
        ensures enough { IfOk result (λ d. min sectors 16777216 ≤ length d.sectors) }
        ensures unused { IfOk result (λ d. d.failures ≡ 0) }
        ensures same { IfOk result (λ d. d.file ≡ file) }
        ensures read { IfOk result (λ d. AreRead F.gave file d.sectors) }
        ensures refused { IfErr result (λ error. IsNoDevice F.refused file error
            ⊎ IsShorter F.measured (min sectors 16777216) file) }
    {
        let wanted = sectors.min(MOST_SECTORS);
        if file.sectors()? < u64::from(wanted) {
            file.lengthen(wanted)?;
        }
        let device = FileDevice::with(alloc, file, wanted)?;
        if device.sectors.len() < wanted as usize {
            return Err(io::Error::from(ErrorKind::UnexpectedEof)); // it was cut meanwhile
        }
        Ok(device)
    }

    /// Whether its first sector begins with these bytes.
    fn begins_with(&self, beginning: &[u8; 8]) -> bool
        ensures { IsTrue result → BeginsWith beginning.now self.now.sectors }
    {
        if self.sectors.len() == 0 {
            return false;
        }
        let image = self.sectors.get(0);
        &image[..8] == beginning.as_slice()
    }

    /// A device of a file as `lengthened` makes one; but a file that begins with these bytes stays as long as it is.
    pub fn lengthened_unless(
        alloc: Global,
        file: F,
        sectors: u32,
        beginning: &[u8; 8],
    ) -> io::Result<FileDevice<F>>
        ensures few { IfOk result (λ d. length d.sectors ≤ 16777216) }
        ensures sized { IfOk result (λ d. IsOfSize (max sectors 65536) d.sectors) }
        ensures enough { IfOk result (λ d. min sectors 16777216 ≤ length d.sectors
            ⊎ BeginsWith beginning.now d.sectors) }
        ensures unused { IfOk result (λ d. d.failures ≡ 0) }
        ensures same { IfOk result (λ d. d.file ≡ file) }
        ensures read { IfOk result (λ d. AreRead F.gave file d.sectors) }
        ensures refused { IfErr result (λ error. IsNoDevice F.refused file error
            ⊎ IsShorter F.measured (min sectors 16777216) file) }
    {
        let device = FileDevice::of(alloc, file)?;
        if device.begins_with(beginning) {
            return Ok(device);
        }
        let FileDevice { file, .. } = device;
        FileDevice::lengthened(alloc, file, sectors)
    }

    /// A device of the whole sectors of a file that is open to read and write: 65,536 at most, or 16,777,216 where it begins as a
    /// volume of version 4.
    pub fn of(alloc: Global, file: F) -> io::Result<FileDevice<F>>
        ensures few { IfOk result (λ d. length d.sectors ≤ 16777216) }
        ensures sized { IfOk result (λ d. IsOfSize 65536 d.sectors) }
        ensures unused { IfOk result (λ d. d.failures ≡ 0) }
        ensures same { IfOk result (λ d. d.file ≡ file) }
        ensures read { IfOk result (λ d. AreRead F.gave file d.sectors) }
        ensures refused { IfErr result (IsNoDevice F.refused file) }
    {
        FileDevice::with(alloc, file, 0)
    }

    /// The same, but it has as many as are wanted, where the file does.
    fn with(alloc: Global, file: F, wanted: u32) -> io::Result<FileDevice<F>>
        ensures few { IfOk result (λ d. length d.sectors ≤ 16777216) }
        ensures sized { IfOk result (λ d. IsOfSize (max wanted 65536) d.sectors) }
        ensures unused { IfOk result (λ d. d.failures ≡ 0) }
        ensures same { IfOk result (λ d. d.file ≡ file) }
        ensures read { IfOk result (λ d. AreRead F.gave file d.sectors) }
        ensures measured { IfOk result (λ d. IsLongAs F.measured (max wanted 65536) file d.sectors) }
        ensures refused { IfErr result (IsNoDevice F.refused file) }
    {
        let sectors = whole_sectors(alloc, &file, wanted)?;
        Ok(FileDevice {
            file,
            sectors,
            failures: 0,
            moments: Moments::new(),
        })
    }

    /// Counts an operation that failed, as far as the count goes.
    fn fail(&mut self) -> DeviceFault
        ensures failures { self.new.failures ≡ counted true self.old.failures }
        ensures sectors { self.new.sectors ≡ self.old.sectors }
        ensures moments { self.new.moments ≡ self.old.moments }
        ensures file { self.new.file ≡ self.old.file }
    {
        self.failures = self.failures.saturating_add(1);
        DeviceFault
    }
}

impl<F: SectorFile + Drop> Device for FileDevice<F> {
    ghost disk = { λ d. kept d.sectors d.moments.unsynced d.moments.times };

    ghost honest = { λ d. F.honest d.file };

    ghost size = { λ d. length d.sectors };

    ghost failures = { λ d. d.failures };

    ghost goes_on = { λ end first later.
        LeavesPast end (kept first.sectors first.moments.unsynced first.moments.times)
        (kept later.sectors later.moments.unsynced later.moments.times) };

    ghost counts_now = { λ d t c h le may.
        mixed_since d.sectors d.moments.unsynced d.moments.times t c may };

    ghost only_now = { λ d c h left.
        mixed_now d.sectors d.moments.unsynced d.moments.times c left };

    ghost may_stay = { λ d h. now_may_stay d.sectors d.moments.unsynced };

    ghost begins = { λ end d. past_same end (kept d.sectors d.moments.unsynced d.moments.times) };

    ghost goes_further = { λ end a b c one two. past_then end _ _ _ one two };

    ghost leaves_past = { λ end first later h from. from };

    fn sectors(&self) -> u32 {
        self.sectors.len() as u32
    }

    fn failures(&self) -> u64 {
        self.failures
    }

    fn read(&mut self, n: u32) -> Result<Sector, DeviceFault> {
        self.moments = self.moments.after_reading(&self.sectors);
        Ok(self.sectors.get(n))
    }

    /// What the trait says; and it is the file that took it, or that failed.
    fn write(&mut self, n: u32, image: &Sector) -> Result<(), DeviceFault>
        requires { n < length self.old.sectors }
        ensures told { MatchResult result (λ _. F.wrote self.old.file n image.now self.new.file)
            (λ _. F.refused self.old.file self.new.file) }
        ensures written { F.honest self.old.file → OnOk result
            (image_of self.new.sectors ≡ put n image.now (image_of self.old.sectors)) }
        ensures seen { F.honest self.old.file
            → Wrote n image.now (image_of self.old.sectors) (image_of self.new.sectors) }
        ensures crash { F.honest self.old.file → Leaves
            (kept self.old.sectors self.old.moments.unsynced self.old.moments.times)
            (kept self.new.sectors self.new.moments.unsynced self.new.moments.times)
            (After (Wrote n image.now) (kept self.old.sectors self.old.moments.unsynced
            self.old.moments.times).may_leave) }
        ensures keeps { F.honest self.old.file → Keeps
            (kept self.old.sectors self.old.moments.unsynced self.old.moments.times)
            (kept self.new.sectors self.new.moments.unsynced self.new.moments.times) }
        ensures operation_count { F.honest self.old.file
            → OneMore (kept self.old.sectors self.old.moments.unsynced self.old.moments.times)
            (kept self.new.sectors self.new.moments.unsynced self.new.moments.times) }
        ensures honest { F.honest self.old.file ↔ F.honest self.new.file }
        ensures size { length self.new.sectors ≡ length self.old.sectors }
        ensures failures { self.new.failures ≡ counted (is_err result) self.old.failures }
        ensures goes_on { (end : ℕ) → n < end → StillGoesOn (λ first later.
            LeavesPast end (kept first.sectors first.moments.unsynced first.moments.times)
            (kept later.sectors later.moments.unsynced later.moments.times)) self.old self.new }
    {
        self.moments = self.moments.after_writing(&self.sectors);
        self.sectors.put(n, image);
        match self.file.write(n, image) {
            Ok(()) => Ok(()),
            Err(_) => Err(self.fail()),
        }
    }

    /// What the trait says; and it is the file that made it last and has all its sectors, or that failed.
    fn sync(&mut self) -> Result<(), DeviceFault>
        ensures told { MatchResult result (λ _. IsSettled F.synced F.measured
            (length self.old.sectors) self.old.file self.new.file)
            (λ _. IsUnsettled F.refused F.synced F.measured (length self.old.sectors) self.old.file
            self.new.file) }
        ensures durable { F.honest self.old.file → OnOk result
            (Only (image_of self.old.sectors) (kept self.new.sectors self.new.moments.unsynced
            self.new.moments.times).may_leave) }
        ensures seen { F.honest self.old.file → image_of self.new.sectors ≡ image_of
            self.old.sectors }
        ensures crash { F.honest self.old.file → Leaves
            (kept self.old.sectors self.old.moments.unsynced self.old.moments.times)
            (kept self.new.sectors self.new.moments.unsynced self.new.moments.times) (λ c. ⊥) }
        ensures keeps { F.honest self.old.file → Keeps
            (kept self.old.sectors self.old.moments.unsynced self.old.moments.times)
            (kept self.new.sectors self.new.moments.unsynced self.new.moments.times) }
        ensures operation_count { F.honest self.old.file
            → OneMore (kept self.old.sectors self.old.moments.unsynced self.old.moments.times)
            (kept self.new.sectors self.new.moments.unsynced self.new.moments.times) }
        ensures honest { F.honest self.old.file ↔ F.honest self.new.file }
        ensures size { length self.new.sectors ≡ length self.old.sectors }
        ensures failures { self.new.failures ≡ counted (is_err result) self.old.failures }
        ensures goes_on { (end : ℕ) → StillGoesOn (λ first later.
            LeavesPast end (kept first.sectors first.moments.unsynced first.moments.times)
            (kept later.sectors later.moments.unsynced later.moments.times)) self.old self.new }
    {
        match settle(&mut self.file, self.sectors.len()) {
            Ok(()) => {
                self.moments = self.moments.after_syncing(&self.sectors);
                Ok(())
            }
            Err(_) => {
                self.moments = self.moments.after_reading(&self.sectors);
                Err(self.fail())
            }
        }
    }
}

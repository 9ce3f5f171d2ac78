//! An open volume.

ghost use Rattle.std.specs.Prelude.{ℕ, ◌≡◌, ◌≤◌, ◌<◌, ◌⊎◌, ◌↔◌, ⊤, [], Ok, Err, OnOk, OnErr, IfOk, IfErr, MatchResult, IfSome, IsSome, IsTrue, is_err, false, true, length};
ghost use Rattle.std.specs.Option.{MatchOption};
ghost use Rattle.vol_sector.specs.Disk.{Image, Leaves, counted};
ghost use Rattle.vol_sector.specs.Past.{StillGoesOn};
ghost use Rattle.vol_body.specs.declared.writing.TheConstants.{PIECE};
ghost use Rattle.vol_tree.specs.Tree.{File, Directory, IsTree, IsDirectory, entry, lookup};
ghost use Rattle.vol_tree.specs.Stat.{TellsStat, TellsPlace};
ghost use Rattle.vol_tree.specs.Stats.{IsStats};
ghost use Rattle.vol_tree.specs.Calls.{created, written, resized, read_bytes, is_file_at, with_unit};
ghost use Rattle.vol_tree.specs.Calls.{unlinked, directory_removed, renamed, next_child};
ghost use Rattle.vol_tree.specs.Stands.{StandsAs};
ghost use Rattle.vol_tree.specs.Superblock.{HasRanges, IsOlder};
ghost use Rattle.vol_tree.specs.Opening.{StandsOn, IsPast};
ghost use Rattle.vol_tree.specs.Handing.{IsOpened, IsRightly, KeepsDevice, LeavesRefused, device_opened, is_device_refused};
ghost use Rattle.vol_tree.specs.declared.superblock.Superblock.{Superblock};
ghost use Rattle.vol_tree.specs.Tree.{Tree};
ghost use Rattle.vol_tree.specs.Clauses.{Answers, Tells, TellsBytes, MayUpgrade};
ghost use Rattle.vol_tree.specs.Opened.{Keeps, ReflectsOr};
ghost use Rattle.vol_tree.specs.Clauses.{LeavesAlone};
ghost use Rattle.vol_tree.specs.Opened.{IsSerial, GoesOn};
ghost use Rattle.vol_tree.specs.Clauses.{is_io, raised};
ghost use Rattle.vol_tree.specs.Opened.{geometry};
ghost use Rattle.vol_inode.specs.Name.{IsName};

use crate::checking::read_parts;
use crate::opening::read_front;
use crate::parts::Parts;
use crate::stat::{is_serial, parent_of};
use crate::{Errno, Place, Stat, Stats};
use std::alloc::Global;
use std::marker::Model;
use vol_body::{Source, read_at};
use vol_dirs::each_serial_has_one_name;
use vol_inode::{Kind, Serial, Version};
use vol_log::{FIRST_AFTER_LOG, Log};
use vol_sector::{Device, Refused, VolumeFault};

/// A volume of files in directories.
#[derive(Drop)]
pub struct Volume<D: Device> {
    parts: Parts<D>,
}

impl<D: Device> Model for Volume<D> {
    ghost use Rattle.vol_tree.specs.Opened.{Opened};

    ghost Value = { Opened D };

    ghost use Rattle.vol_tree.specs.Parts.{opened};
    ghost use Rattle.vol_tree.specs.internal.Parts.{IsOpen};

    ghost view = { λ v. opened v.parts };

    ghost invariant = { λ v. IsOpen v.parts };
}

impl<D: Device> Volume<D> {
    ghost use Rattle.vol_tree.specs.Parts.{opened};
    ghost use Rattle.vol_tree.specs.internal.Parts.{IsOpen};

    /// Opens the volume that a device holds: what its log holds is installed, and then all its
    /// sectors that have rules are read and checked.
    ///
    /// It is refused, in this order, as `NotAVolume` where the device has fewer than 137 sectors or
    /// begins otherwise, as `Version` where the version is none that is known, and as `Damaged`
    /// where another rule of the format is broken or the device has fewer sectors than the volume.
    /// Anywhere it is refused as `Device` where an operation failed, and as `Memory`. Where the first
    /// sector or the log's header is wrong nothing is written, else only what the log holds.
    ///
    /// It may be stopped and begun again any number of times. It takes the memory for all later
    /// calls.
    pub fn open(alloc: Global, mut device: D) -> Result<Volume<D>, Refused<D>>
        ensures opens { IfOk result (IsOpened D.honest D.disk D.size device) }
        ensures why { IfErr result (IsRightly D.honest D.disk D.size device) }
        ensures few_sectors { D.size device < 137
            → result ≡ Err (record { device = device; fault = VolumeFault.NotAVolume }) }
        // So where what reads give stands for a tree, it is opened with that tree, or the device or
        // the memory fails.
        ensures finds { (v : Superblock) (T : Tree) → D.honest device
            → StandsOn (D.size device) (D.disk device).seen v T → MatchResult result
            (λ o. (o.numbers ≡ v) × (o.tree ≡ T))
            (λ r. (r.fault ≡ VolumeFault.Device) ⊎ (r.fault ≡ VolumeFault.Memory)) }
        // At any moment a crash leaves what it could leave before, or the tree that reads gave.
        ensures crash { (v : Superblock) (T : Tree) → D.honest device
            → StandsOn (D.size device) (D.disk device).seen v T
            → Leaves (D.disk device) (D.disk (device_opened result)) (λ c. StandsAs c v T) }
        ensures left { IfErr result (LeavesRefused D.honest D.disk D.size device) }
        ensures kept { KeepsDevice D.honest D.size D.failures device (device_opened result)
            (is_device_refused result) }
        // No sector past the volume's own is written.
        ensures goes_on_ok { IfOk result (λ v. (end : ℕ) → v.numbers.sectors ≤ end
            → StillGoesOn (D.goes_on end) device v.device) }
        ensures goes_on_err { (end : ℕ)
            → IsPast (D.size device) (D.honest device) (D.disk device).seen end
            → IfErr result (λ r. StillGoesOn (D.goes_on end) device r.device) }
    {
        let numbers = match read_front(&mut device) {
            Ok(numbers) => numbers,
            Err(fault) => return Err(Refused { device, fault }),
        };
        let mut log = match Log::open(alloc, device, numbers.sectors) {
            Ok(log) => log,
            Err(refused) => return Err(refused),
        };
        match read_parts(alloc, &mut log, &numbers) {
            Ok((dirs, sectors, reserved)) => Ok(Volume {
                parts: Parts {
                    log,
                    dirs,
                    sectors,
                    numbers,
                    reserved,
                },
            }),
            Err(fault) => Err(Refused {
                device: log.into_device(),
                fault,
            }),
        }
    }

    /// The volume whose parts these are.
    pub(crate) fn of_parts(parts: Parts<D>) -> Volume<D>
        requires { IsOpen parts }
        ensures { result ≡ opened parts }
    {
        Volume { parts }
    }

    /// A law: on a device that keeps its model, what an open volume shows is a tree with a place for
    /// each slot. On any device its numbers are those that a volume may have, and the device has all
    /// its sectors.
    pub fn is_a_tree(&self)
        ensures tree { D.honest self.now.device → IsTree self.now.tree }
        ensures count { length self.now.tree ≡ self.now.numbers.slots }
        ensures ranges { HasRanges self.now.numbers }
        ensures room { self.now.numbers.sectors ≤ D.size self.now.device }
    {
        let _parts = &self.parts; // says what an open volume keeps of them
    }

    /// Has a device operation failed since it was opened?
    pub fn failed(&self) -> bool
        ensures { result ≡ self.now.failed }
    {
        self.parts.log.failed()
    }

    /// How many entries and sectors there are, and how many of them are used.
    pub fn stats(&self) -> Stats
        ensures { D.honest self.now.device → IsStats self.now.tree self.now.numbers result }
    {
        let parts = &self.parts;
        Stats {
            entries: parts.entries(),
            slots: parts.numbers.slots,
            needed: parts.reserved,
            sectors: parts.numbers.sectors - (FIRST_AFTER_LOG + parts.numbers.slots),
        }
    }

    /// The version of its format.
    pub fn version(&self) -> Version
        ensures { result ≡ self.now.numbers.version }
    {
        self.parts.numbers.version
    }

    /// The serial of a name in a directory.
    pub fn lookup(&mut self, directory: Serial, name: &[u8]) -> Result<Option<Serial>, Errno>
        requires name { IsName name.now }
        ensures answer { D.honest self.old.device
            → Tells (lookup self.old.tree directory name.now) self.old.tree self.new.tree result }
        ensures crash { D.honest self.old.device
            → Leaves (D.disk self.old.device) (D.disk self.new.device) (λ c. ⊥) }
        ensures kept { Keeps D.honest D.size D.failures self.old self.new (is_io result) }
        ensures goes_on { GoesOn D.goes_on self.old self.new }
        ensures range { IfOk result (λ found. MatchOption found ⊤
            (λ s. IsSerial self.old.numbers s)) }
    {
        let parts = &self.parts;
        let found = parts.dirs.lookup(&parts.log, directory, name)?;
        each_serial_has_one_name(&parts.dirs);
        Ok(found)
    }

    /// The least serial over the number `after` of an entry in a directory.
    pub fn list_next(&mut self, directory: Serial, after: u32) -> Result<Option<Serial>, Errno>
        ensures answer { D.honest self.old.device
            → Tells (next_child self.old.tree directory after) self.old.tree self.new.tree
            result }
        ensures crash { D.honest self.old.device
            → Leaves (D.disk self.old.device) (D.disk self.new.device) (λ c. ⊥) }
        ensures range { IfOk result (λ found. IfSome found (IsSerial self.old.numbers)) }
        ensures kept { Keeps D.honest D.size D.failures self.old self.new (is_io result) }
        ensures goes_on { GoesOn D.goes_on self.old self.new }
    {
        let parts = &self.parts;
        Ok(parts.dirs.next_child(&parts.log, directory, after)?)
    }

    /// What an entry is, and where it stands. It refuses with `Io` where the volume has failed or a read fails, and with `Invalid`
    /// where a device that doesn't keep its model shows no entry in its slot, or one whose parent's number is no serial of the volume.
    pub fn stat(&mut self, serial: Serial) -> Result<Stat, Errno>
        requires first { 1 ≤ serial }
        requires last { serial ≤ self.old.numbers.slots }
        requires used { D.honest self.old.device → IsSome (entry self.old.tree serial) }
        ensures answer { D.honest self.old.device
            → TellsStat serial self.old.tree self.new.tree result }
        ensures crash { D.honest self.old.device
            → Leaves (D.disk self.old.device) (D.disk self.new.device) (λ c. ⊥) }
        ensures kept { Keeps D.honest D.size D.failures self.old self.new (is_io result) }
        ensures goes_on { GoesOn D.goes_on self.old self.new }
        ensures parent { IfOk result (λ s. IsSerial self.old.numbers s.parent) }
    {
        let entry = self.parts.entry(serial)?;
        let parent = parent_of(serial, entry.parent);
        if !is_serial(&self.parts.numbers, parent) {
            return Err(Errno::Invalid); // no honest device shows such an entry
        }
        let name = entry.name;
        Ok(Stat {
            kind: entry.kind,
            size: entry.size,
            parent,
            name_length: entry.name_length,
            name,
        })
    }

    /// Whether an entry is a directory, and which one it is in, from memory: no sector is read. It
    /// refuses with `Io` where the volume has failed, and with `Invalid` as `stat` does.
    pub fn place(&self, serial: Serial) -> Result<Place, Errno>
        requires first { 1 ≤ serial }
        requires last { serial ≤ self.now.numbers.slots }
        requires used { D.honest self.now.device → IsSome (entry self.now.tree serial) }
        ensures answer { D.honest self.now.device → TellsPlace serial self.now.tree result }
        ensures failed { is_io result ≡ self.now.failed }
        ensures parent { IfOk result (λ p. IsSerial self.now.numbers p.parent) }
    {
        let parts = &self.parts;
        if parts.log.failed() {
            return Err(Errno::Io);
        }
        let seat = parts.dirs.seat(serial);
        let parent = parent_of(serial, seat.parent);
        if !is_serial(&parts.numbers, parent) {
            return Err(Errno::Invalid); // no honest device shows such an entry
        }
        Ok(Place {
            directory: seat.directory,
            parent,
        })
    }

    /// Makes an empty file.
    pub fn create_file(&mut self, parent: Serial, name: &[u8]) -> Result<Serial, Errno>
        requires serial { 1 ≤ parent }
        requires name { IsName name.now }
        requires directory { D.honest self.old.device → IsDirectory self.old.tree parent }
        ensures answer { D.honest self.old.device
            → Answers (created self.old.tree parent name.now (File [])) self.old.tree
            self.new.tree result }
        ensures crash { D.honest self.old.device
            → Leaves (D.disk self.old.device) (D.disk self.new.device)
            (ReflectsOr (D.disk self.old.device) self.old.numbers self.old.tree) }
        ensures refused { D.honest self.old.device
            → LeavesAlone (D.disk self.old.device) (D.disk self.new.device) result }
        ensures range { IfOk result (IsSerial self.old.numbers) }
        ensures kept { Keeps D.honest D.size D.failures self.old self.new (is_io result) }
        ensures goes_on { GoesOn D.goes_on self.old self.new }
    {
        self.parts.create(parent, name, Kind::File)
    }

    /// Makes an empty directory.
    pub fn create_dir(&mut self, parent: Serial, name: &[u8]) -> Result<Serial, Errno>
        requires serial { 1 ≤ parent }
        requires name { IsName name.now }
        requires directory { D.honest self.old.device → IsDirectory self.old.tree parent }
        ensures answer { D.honest self.old.device
            → Answers (created self.old.tree parent name.now Directory) self.old.tree
            self.new.tree result }
        ensures crash { D.honest self.old.device
            → Leaves (D.disk self.old.device) (D.disk self.new.device)
            (ReflectsOr (D.disk self.old.device) self.old.numbers self.old.tree) }
        ensures refused { D.honest self.old.device
            → LeavesAlone (D.disk self.old.device) (D.disk self.new.device) result }
        ensures range { IfOk result (IsSerial self.old.numbers) }
        ensures kept { Keeps D.honest D.size D.failures self.old self.new (is_io result) }
        ensures goes_on { GoesOn D.goes_on self.old self.new }
    {
        self.parts.create(parent, name, Kind::Directory)
    }

    /// Writes at most 16,384 bytes into a file. A gap before them reads as zeros; of no bytes
    /// nothing changes.
    pub fn write(&mut self, file: Serial, offset: u64, bytes: &[u8]) -> Result<(), Errno>
        requires first { 1 ≤ file }
        requires last { file ≤ self.old.numbers.slots }
        requires piece { length bytes.now ≤ PIECE }
        requires used { D.honest self.old.device → IsTrue (is_file_at self.old.tree file) }
        ensures answer { D.honest self.old.device
            → Answers (with_unit (written (geometry self.old.numbers) self.old.tree file offset
            bytes.now)) self.old.tree self.new.tree result }
        ensures crash { D.honest self.old.device
            → Leaves (D.disk self.old.device) (D.disk self.new.device)
            (ReflectsOr (D.disk self.old.device) self.old.numbers self.old.tree) }
        ensures refused { D.honest self.old.device
            → LeavesAlone (D.disk self.old.device) (D.disk self.new.device) result }
        ensures kept { Keeps D.honest D.size D.failures self.old self.new (is_io result) }
        ensures goes_on { GoesOn D.goes_on self.old self.new }
    {
        self.write_from(file, offset, &Source::of(bytes))
    }

    /// Writes at most 16,384 bytes, which stand in one slice or in several, into a file, as `write`
    /// does.
    pub fn write_from(&mut self, file: Serial, offset: u64, bytes: &Source<'_>) -> Result<(), Errno>
        requires first { 1 ≤ file }
        requires last { file ≤ self.old.numbers.slots }
        requires piece { length bytes.now ≤ PIECE }
        requires used { D.honest self.old.device → IsTrue (is_file_at self.old.tree file) }
        ensures answer { D.honest self.old.device
            → Answers (with_unit (written (geometry self.old.numbers) self.old.tree file offset
            bytes.now)) self.old.tree self.new.tree result }
        ensures crash { D.honest self.old.device
            → Leaves (D.disk self.old.device) (D.disk self.new.device)
            (ReflectsOr (D.disk self.old.device) self.old.numbers self.old.tree) }
        ensures refused { D.honest self.old.device
            → LeavesAlone (D.disk self.old.device) (D.disk self.new.device) result }
        ensures kept { Keeps D.honest D.size D.failures self.old self.new (is_io result) }
        ensures goes_on { GoesOn D.goes_on self.old self.new }
    {
        if self.parts.log.failed() {
            return Err(Errno::Io);
        }
        if bytes.is_empty() {
            return Ok(());
        }
        self.parts.write(file, offset, bytes)
    }

    /// Sets the size of a file in bytes. Bytes that it gains are zeros.
    pub fn set_size(&mut self, file: Serial, size: u64) -> Result<(), Errno>
        requires first { 1 ≤ file }
        requires last { file ≤ self.old.numbers.slots }
        requires used { D.honest self.old.device → IsTrue (is_file_at self.old.tree file) }
        ensures answer { D.honest self.old.device
            → Answers (with_unit (resized (geometry self.old.numbers) self.old.tree file size))
            self.old.tree self.new.tree result }
        ensures crash { D.honest self.old.device
            → Leaves (D.disk self.old.device) (D.disk self.new.device)
            (ReflectsOr (D.disk self.old.device) self.old.numbers self.old.tree) }
        ensures refused { D.honest self.old.device
            → LeavesAlone (D.disk self.old.device) (D.disk self.new.device) result }
        ensures kept { Keeps D.honest D.size D.failures self.old self.new (is_io result) }
        ensures goes_on { GoesOn D.goes_on self.old self.new }
    {
        self.parts.set_size(file, size)
    }

    /// Reads the bytes of a file from an offset on into the buffer, as many as there are and fit,
    /// and says how many. Where it is refused, a beginning of them may stand in the buffer.
    pub fn read(&mut self, file: Serial, offset: u64, buffer: &mut [u8]) -> Result<usize, Errno>
        requires first { 1 ≤ file }
        requires last { file ≤ self.old.numbers.slots }
        requires used { D.honest self.old.device → IsTrue (is_file_at self.old.tree file) }
        ensures answer { D.honest self.old.device
            → TellsBytes (read_bytes self.old.tree file offset (length buffer.old)) buffer.old
            buffer.new self.old.tree self.new.tree result }
        ensures crash { D.honest self.old.device
            → Leaves (D.disk self.old.device) (D.disk self.new.device) (λ c. ⊥) }
        ensures kept { Keeps D.honest D.size D.failures self.old self.new (is_io result) }
        ensures goes_on { GoesOn D.goes_on self.old self.new }
    {
        let entry = self.parts.entry(file)?;
        let parts = &mut self.parts;
        Ok(read_at(&mut parts.log, &parts.sectors, &entry, offset, buffer)?)
    }

    /// Takes a file out of its directory, and gives its space back.
    pub fn unlink(&mut self, file: Serial) -> Result<(), Errno>
        requires first { 1 ≤ file }
        requires last { file ≤ self.old.numbers.slots }
        requires used { D.honest self.old.device → IsTrue (is_file_at self.old.tree file) }
        ensures answer { D.honest self.old.device
            → Answers (with_unit (Ok (unlinked self.old.tree file))) self.old.tree
            self.new.tree result }
        ensures crash { D.honest self.old.device
            → Leaves (D.disk self.old.device) (D.disk self.new.device)
            (ReflectsOr (D.disk self.old.device) self.old.numbers self.old.tree) }
        ensures kept { Keeps D.honest D.size D.failures self.old self.new (is_io result) }
        ensures goes_on { GoesOn D.goes_on self.old self.new }
    {
        self.parts.unlink(file)
    }

    /// Takes an empty directory out of the one that it is in. The root stays.
    pub fn rmdir(&mut self, directory: Serial) -> Result<(), Errno>
        requires first { 1 ≤ directory }
        requires last { directory ≤ self.old.numbers.slots }
        requires used { D.honest self.old.device → IsDirectory self.old.tree directory }
        ensures answer { D.honest self.old.device
            → Answers (with_unit (directory_removed self.old.tree directory)) self.old.tree
            self.new.tree result }
        ensures crash { D.honest self.old.device
            → Leaves (D.disk self.old.device) (D.disk self.new.device)
            (ReflectsOr (D.disk self.old.device) self.old.numbers self.old.tree) }
        ensures refused { D.honest self.old.device
            → LeavesAlone (D.disk self.old.device) (D.disk self.new.device) result }
        ensures kept { Keeps D.honest D.size D.failures self.old self.new (is_io result) }
        ensures goes_on { GoesOn D.goes_on self.old self.new }
    {
        self.parts.rmdir(directory)
    }

    /// Gives an entry another place or name. The entry that has it goes: an empty directory where a
    /// directory comes, a file where a file comes. Neither the root may move, nor an entry into
    /// itself or below.
    pub fn rename(&mut self, serial: Serial, parent: Serial, name: &[u8]) -> Result<(), Errno>
        requires first { 1 ≤ serial }
        requires last { serial ≤ self.old.numbers.slots }
        requires parent_first { 1 ≤ parent }
        requires parent_last { parent ≤ self.old.numbers.slots }
        requires name { IsName name.now }
        requires used { D.honest self.old.device → IsSome (entry self.old.tree serial) }
        requires directory { D.honest self.old.device → IsDirectory self.old.tree parent }
        ensures answer { D.honest self.old.device
            → Answers (with_unit (renamed self.old.tree serial parent name.now)) self.old.tree
            self.new.tree result }
        ensures crash { D.honest self.old.device
            → Leaves (D.disk self.old.device) (D.disk self.new.device)
            (ReflectsOr (D.disk self.old.device) self.old.numbers self.old.tree) }
        ensures refused { D.honest self.old.device
            → LeavesAlone (D.disk self.old.device) (D.disk self.new.device) result }
        ensures kept { Keeps D.honest D.size D.failures self.old self.new (is_io result) }
        ensures goes_on { GoesOn D.goes_on self.old self.new }
    {
        self.parts.rename(serial, parent, name)
    }

    /// Makes all calls so far last.
    pub fn sync(&mut self) -> Result<(), Errno>
        ensures answer { D.honest self.old.device
            → Answers (with_unit (Ok self.old.tree)) self.old.tree self.new.tree result }
        ensures crash { D.honest self.old.device
            → Leaves (D.disk self.old.device) (D.disk self.new.device)
            (ReflectsOr (D.disk self.old.device) self.old.numbers self.old.tree) }
        ensures durable { D.honest self.old.device → OnOk result ((c : Image)
            → (D.disk self.new.device).may_leave c
            → StandsAs c self.new.numbers self.new.tree) }
        ensures kept { Keeps D.honest D.size D.failures self.old self.new (is_io result) }
        ensures goes_on { GoesOn D.goes_on self.old self.new }
    {
        Ok(self.parts.commit()?)
    }

    /// Commits, and makes the volume one of a newer version, in which files may be greater.
    ///
    /// It is refused as `Upgraded` where the volume has this version or a newer one, before any device operation,
    /// and else as `Device`; then it has failed.
    pub fn upgrade(&mut self, to: Version) -> Result<(), VolumeFault>
        ensures newest { (IsOlder self.old.numbers.version to → ⊥)
            → (self.new ≡ self.old) × (result ≡ Err VolumeFault.Upgraded) }
        ensures refused { IsOlder self.old.numbers.version to
            → IfErr result (λ fault. fault ≡ VolumeFault.Device) }
        ensures numbers { OnOk result (self.new.numbers ≡ raised to self.old.numbers) }
        ensures unchanged { OnErr result (self.new.numbers ≡ self.old.numbers) }
        ensures tree { D.honest self.old.device → self.new.tree ≡ self.old.tree }
        ensures crash { D.honest self.old.device
            → Leaves (D.disk self.old.device) (D.disk self.new.device)
            (MayUpgrade (D.disk self.old.device) self.old.numbers to self.old.tree) }
        // At Ok each crash leaves the tree in a volume of that version.
        ensures durable { D.honest self.old.device → OnOk result ((c : Image)
            → (D.disk self.new.device).may_leave c
            → StandsAs c self.new.numbers self.new.tree) }
        ensures failed { IsOlder self.old.numbers.version to → self.new.failed ≡ is_err result }
        ensures failures { IsOlder self.old.numbers.version to → self.old.failed ≡ false
            → D.failures self.new.device ≡ counted (is_err result) (D.failures self.old.device) }
        ensures idle { IsOlder self.old.numbers.version to → self.old.failed ≡ true
            → (self.new.device ≡ self.old.device) × (is_err result ≡ true) }
        ensures honest { D.honest self.old.device ↔ D.honest self.new.device }
        ensures size { D.size self.new.device ≡ D.size self.old.device }
        ensures goes_on { GoesOn D.goes_on self.old self.new }
    {
        self.parts.upgrade(to)
    }

    /// The device, as it is now: what isn't committed isn't there yet.
    pub fn device(&self) -> &D
        ensures { result.now ≡ self.now.device }
    {
        self.parts.log.device()
    }

    /// The device. What isn't committed is discarded.
    pub fn into_device(self) -> D
        ensures { result ≡ self.device }
    {
        let Volume { parts } = self;
        parts.log.into_device()
    }
}

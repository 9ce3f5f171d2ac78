//! What the calls on names do to the parts of an open volume.

ghost use Rattle.std.specs.Prelude.{◌≡◌, ◌≢◌, ◌≤◌, IsSome, IfOk, MatchResult, Some, None, Ok, true, false, is_err};
ghost use Rattle.vol_inode.specs.Entry.{IsEntry, name_of};
ghost use Rattle.vol_log.specs.Log.{view, device_of, room_of, has_failed};
ghost use Rattle.vol_dirs.specs.Names.{Names};
ghost use Rattle.vol_tree.specs.Tree.{IsDirectory, entry, changed};
ghost use Rattle.vol_tree.specs.Calls.{unlinked, directory_removed, with_unit, is_file_at};
ghost use Rattle.vol_tree.specs.Clauses.{is_io};

use crate::Errno;
use crate::parts::Parts;
use vol_body::set_size;
use vol_dirs::slot_sector;
use vol_inode::{Entry, Serial, is_name, need};
use vol_sector::{Device, DeviceFault};

impl<D: Device> Parts<D> {
    ghost use Rattle.vol_tree.specs.internal.Slots.{slot_of};
    ghost use Rattle.vol_tree.specs.internal.Changes.{Changes};
    ghost use Rattle.vol_tree.specs.Parts.{opened};
    ghost use Rattle.vol_tree.specs.internal.Parts.{IsOpen};
    ghost use Rattle.vol_tree.specs.internal.Commits.{ReadsOnly};
    ghost use Rattle.vol_tree.specs.internal.Removals.{IsBare, Removes, TakesOut};

    /// Takes a file out of its directory, and its space back.
    pub fn unlink(&mut self, file: Serial) -> Result<(), Errno>
        requires is_open { IsOpen self.old }
        requires first { 1 ≤ file }
        requires last { file ≤ self.old.numbers.slots }
        requires used { D.honest (device_of self.old.log)
            → is_file_at (opened self.old).tree file ≡ true }
        ensures { Changes (with_unit (Ok (unlinked (opened self.old).tree file))) self.old self.new
            result }
    {
        self.remove(file)
    }

    /// Takes an empty directory out of the one that it is in.
    pub fn rmdir(&mut self, directory: Serial) -> Result<(), Errno>
        requires is_open { IsOpen self.old }
        requires first { 1 ≤ directory }
        requires last { directory ≤ self.old.numbers.slots }
        requires used { D.honest (device_of self.old.log)
            → IsDirectory (opened self.old).tree directory }
        ensures { Changes (with_unit (directory_removed (opened self.old).tree directory))
            self.old self.new result }
    {
        let child = self.dirs.next_child(&self.log, directory, 0)?;
        if directory == Serial::ROOT {
            return Err(Errno::Invalid);
        }
        if child.is_some() {
            return Err(Errno::NotEmpty);
        }
        self.remove(directory)
    }

    /// Takes an entry out in which nothing stands, and its space back.
    fn remove(&mut self, serial: Serial) -> Result<(), Errno>
        requires is_open { IsOpen self.old }
        requires first { 1 ≤ serial }
        requires last { serial ≤ self.old.numbers.slots }
        requires bare { D.honest (device_of self.old.log)
            → IsBare (opened self.old).tree serial }
        ensures { Changes (with_unit (Ok (changed (opened self.old).tree serial None)))
            self.old self.new result }
    {
        let entry = self.held_entry(serial)?;
        self.make_room()?;
        self.take_out(serial, entry)?;
        Ok(())
    }

    /// The entry of a serial other than the root's, which the names hold too.
    ///
    /// Where they don't, which no honest device shows, it is refused as `Invalid`.
    pub(crate) fn held_entry(&mut self, serial: Serial) -> Result<Entry, Errno>
        requires is_open { IsOpen self.old }
        requires first { 1 ≤ serial }
        requires last { serial ≤ self.old.numbers.slots }
        ensures reads { ReadsOnly self.old self.new (is_io result) }
        ensures right { IfOk result (λ e. IsEntry self.old.numbers.version e) }
        ensures held { IfOk result (λ e. Names self.new.dirs e.parent (name_of e) serial) }
        ensures found { D.honest (device_of self.old.log) → serial ≢ 1
            → IsSome (entry (opened self.old).tree serial)
            → MatchResult result
            (λ e. slot_of (view self.old.log) self.old.numbers serial ≡ Some e)
            (λ e. e ≡ Errno.Io) }
    {
        let entry = self.entry(serial)?;
        let name = &entry.name[..entry.name_length as usize];
        if !is_name(name) {
            return Err(Errno::Invalid);
        }
        let found = self
            .dirs
            .lookup(&self.log, Serial::new(entry.parent), name)?;
        if found == Some(serial) {
            return Ok(entry);
        }
        Err(Errno::Invalid)
    }

    /// Takes an entry out that nothing stands in, with the sectors that it names.
    pub(crate) fn take_out(&mut self, serial: Serial, mut entry: Entry) -> Result<(), DeviceFault>
        requires is_open { IsOpen self.old }
        requires working { has_failed self.old.log ≡ false }
        requires room { 6 ≤ room_of self.old.log }
        requires first { 1 ≤ serial }
        requires last { serial ≤ self.old.numbers.slots }
        requires right { IsEntry self.old.numbers.version entry }
        requires held { Names self.old.dirs entry.parent (name_of entry) serial }
        requires removes { D.honest (device_of self.old.log)
            → Removes (view self.old.log) self.old.numbers serial entry }
        ensures { TakesOut serial self.old self.new (is_err result) }
    {
        let size = entry.size;
        set_size(
            &mut self.log,
            &mut self.sectors,
            slot_sector(serial),
            &mut entry,
            0, // a directory has no bytes, and gives nothing back
        )?;
        self.dirs.remove(&mut self.log, serial, &entry);
        self.reserved = self.reserved.saturating_sub(need(size));
        Ok(())
    }
}

//! What renaming does to the parts of an open volume.

ghost use Rattle.std.specs.Prelude.{◌≡◌, ◌≢◌, ◌≤◌, IsSome, IfOk, MatchResult, Some, Ok, false, length};
ghost use Rattle.vol_inode.specs.Entry.{IsEntry, name_of};
ghost use Rattle.vol_inode.specs.Name.{IsName};
ghost use Rattle.vol_inode.specs.declared.version.Version.{Version};
ghost use Rattle.vol_log.specs.Log.{view, device_of, room_of, has_failed};
ghost use Rattle.vol_dirs.specs.Names.{Names};
ghost use Rattle.vol_tree.specs.Tree.{IsDirectory, entry, lookup};
ghost use Rattle.vol_tree.specs.Calls.{renamed, moved, moved_onto, with_unit, is_within};
ghost use Rattle.vol_tree.specs.Clauses.{is_io};
ghost use Rattle.vol_tree.specs.internal.Replacing.{replacing};

use crate::Errno;
use crate::parts::{Parts, padded};
use vol_inode::{Entry, Kind, Serial};
use vol_sector::Device;

impl<D: Device> Parts<D> {
    ghost use Rattle.vol_tree.specs.internal.Slots.{slot_of};
    ghost use Rattle.vol_tree.specs.internal.Changes.{Changes};
    ghost use Rattle.vol_tree.specs.Parts.{opened};
    ghost use Rattle.vol_tree.specs.internal.Parts.{IsOpen};
    ghost use Rattle.vol_tree.specs.internal.Commits.{ReadsOnly};
    ghost use Rattle.vol_tree.specs.internal.Moves.{MovesToName, MovesIn, IsAbove, MovesTo};

    /// Gives an entry another place or name, in place of the one that has it.
    pub fn rename(&mut self, serial: Serial, parent: Serial, name: &[u8]) -> Result<(), Errno>
        requires is_open { IsOpen self.old }
        requires first { 1 ≤ serial }
        requires last { serial ≤ self.old.numbers.slots }
        requires parent_first { 1 ≤ parent }
        requires parent_last { parent ≤ self.old.numbers.slots }
        requires name { IsName name.now }
        requires used { D.honest (device_of self.old.log)
            → IsSome (entry (opened self.old).tree serial) }
        requires directory { D.honest (device_of self.old.log)
            → IsDirectory (opened self.old).tree parent }
        ensures { Changes (with_unit (renamed (opened self.old).tree serial parent name.now))
            self.old self.new result }
    {
        let target = self.dirs.lookup(&self.log, parent, name)?;
        if serial == Serial::ROOT {
            return Err(Errno::Invalid);
        }
        if self.is_within(serial, parent)? {
            return Err(Errno::Invalid);
        }
        match target {
            None => self.move_to(serial, parent, name),
            Some(target) if target == serial => Ok(()),
            Some(target) => self.move_onto(serial, parent, name, target),
        }
    }

    /// Gives an entry a name that no other has.
    fn move_to(&mut self, serial: Serial, parent: Serial, name: &[u8]) -> Result<(), Errno>
        requires is_open { IsOpen self.old }
        requires first { 1 ≤ serial }
        requires last { serial ≤ self.old.numbers.slots }
        requires parent_first { 1 ≤ parent }
        requires name { IsName name.now }
        requires moves { D.honest (device_of self.old.log)
            → MovesToName (opened self.old).tree serial parent name.now }
        ensures { Changes (with_unit (Ok (moved (opened self.old).tree serial parent name.now)))
            self.old self.new result }
    {
        let entry = self.held_entry(serial)?;
        self.make_room()?;
        self.relocate(serial, &entry, parent, name);
        Ok(())
    }

    /// Gives an entry the name of another one, which goes: a directory that of an empty directory,
    /// a file that of a file.
    fn move_onto(
        &mut self,
        serial: Serial,
        parent: Serial,
        name: &[u8],
        target: Serial,
    ) -> Result<(), Errno>
        requires is_open { IsOpen self.old }
        requires first { 1 ≤ serial }
        requires last { serial ≤ self.old.numbers.slots }
        requires target_first { 1 ≤ target }
        requires target_last { target ≤ self.old.numbers.slots }
        requires other { target ≢ serial }
        requires parent_first { 1 ≤ parent }
        requires name { IsName name.now }
        requires moves { D.honest (device_of self.old.log)
            → MovesIn (opened self.old).tree serial parent }
        requires there { D.honest (device_of self.old.log)
            → lookup (opened self.old).tree parent name.now ≡ Some target }
        ensures { Changes (with_unit (moved_onto (opened self.old).tree serial parent name.now
            target)) self.old self.new result }
    {
        let child = self.dirs.next_child(&self.log, target, 0)?;
        let entry = self.held_entry(serial)?;
        let gone = self.held_entry(target)?;
        may_replace(entry.kind, gone.kind, child.is_some())?;
        self.make_room()?;
        self.take_out(target, gone)?;
        self.relocate(serial, &entry, parent, name);
        Ok(())
    }

    /// Whether a directory is the entry, or stands below it.
    fn is_within(&mut self, serial: Serial, directory: Serial) -> Result<bool, Errno>
        requires is_open { IsOpen self.old }
        requires working { has_failed self.old.log ≡ false }
        requires serial { 2 ≤ serial }
        requires first { 1 ≤ directory }
        requires last { directory ≤ self.old.numbers.slots }
        requires used { D.honest (device_of self.old.log)
            → IsDirectory (opened self.old).tree directory }
        ensures reads { ReadsOnly self.old self.new (is_io result) }
        ensures answer { D.honest (device_of self.old.log) → MatchResult result
            (λ within. within ≡ is_within (length (opened self.old).tree) (opened self.old).tree
            serial directory) (λ e. e ≡ Errno.Io) }
    {
        let mut at = directory;
        for step in 0..self.numbers.slots {
            if at == serial {
                return Ok(true);
            }
            if at == Serial::ROOT {
                return Ok(false);
            }
            at = self.above(at)?;
        }
        Ok(at == serial)
    }

    /// The directory that an entry other than the root is in.
    ///
    /// Where it names none, which no honest device shows, it is refused as `Invalid`.
    fn above(&mut self, serial: Serial) -> Result<Serial, Errno>
        requires is_open { IsOpen self.old }
        requires first { 1 ≤ serial }
        requires last { serial ≤ self.old.numbers.slots }
        ensures reads { ReadsOnly self.old self.new (is_io result) }
        ensures range { IfOk result (λ p. (1 ≤ p) × (p ≤ self.old.numbers.slots)) }
        ensures answer { D.honest (device_of self.old.log) → serial ≢ 1
            → IsSome (entry (opened self.old).tree serial)
            → MatchResult result (λ p. IsAbove (opened self.old).tree serial p)
            (λ e. e ≡ Errno.Io) }
    {
        let entry = self.entry(serial)?;
        if entry.parent == 0 {
            return Err(Errno::Invalid);
        }
        if self.numbers.slots < entry.parent {
            return Err(Errno::Invalid);
        }
        Ok(Serial::new(entry.parent))
    }

    /// Gives an entry a place and a name that no other has.
    fn relocate(&mut self, serial: Serial, entry: &Entry, parent: Serial, name: &[u8])
        requires is_open { IsOpen self.old }
        requires working { has_failed self.old.log ≡ false }
        requires room { 1 ≤ room_of self.old.log }
        requires first { 1 ≤ serial }
        requires right { IsEntry self.old.numbers.version entry.now }
        requires held { Names self.old.dirs entry.now.parent (name_of entry.now) serial }
        requires parent_first { 1 ≤ parent }
        requires name { IsName name.now }
        requires slot { D.honest (device_of self.old.log)
            → slot_of (view self.old.log) self.old.numbers serial ≡ Some entry.now }
        requires moves { D.honest (device_of self.old.log)
            → MovesToName (opened self.old).tree serial parent name.now }
        ensures { MovesTo serial parent name.now self.old self.new }
    {
        let to = named_entry(entry, parent, name);
        self.dirs.relocate(&mut self.log, serial, entry, &to);
    }
}

/// The entry, with another place and name.
fn named_entry(entry: &Entry, parent: Serial, name: &[u8]) -> Entry
    requires parent { 1 ≤ parent }
    requires name { IsName name.now }
    ensures right { (version : Version) → IsEntry version entry.now → IsEntry version result }
    ensures parent { result.parent ≡ parent }
    ensures name { name_of result ≡ name.now }
    ensures kind { result.kind ≡ entry.now.kind }
    ensures size { result.size ≡ entry.now.size }
    ensures pointers { result.pointers ≡ entry.now.pointers }
{
    Entry {
        kind: entry.kind,
        name_length: name.len() as u8,
        parent: parent.number(),
        size: entry.size,
        name: padded(name),
        pointers: entry.pointers,
    }
}

/// Whether an entry of one kind may take the place of one of another, which may have entries in it.
fn may_replace(kind: Kind, target: Kind, is_full: bool) -> Result<(), Errno>
    ensures { result ≡ replacing kind target is_full }
{
    match (kind, target) {
        (Kind::Directory, Kind::File) => Err(Errno::NotDirectory),
        (Kind::File, Kind::Directory) => Err(Errno::IsDirectory),
        (Kind::Directory, Kind::Directory) => {
            if is_full {
                Err(Errno::NotEmpty)
            } else {
                Ok(())
            }
        }
        (Kind::File, Kind::File) => Ok(()),
    }
}

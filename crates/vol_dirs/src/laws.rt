//! Laws on what is held and what the slots show.

ghost use Rattle.std.specs.Prelude.{◌≡◌, ◌≢◌, ◌≤◌, ℕ, List};
ghost use Rattle.vol_sector.specs.Disk.{Image};
ghost use Rattle.vol_inode.specs.declared.version.Version.{Version};
ghost use Rattle.vol_inode.specs.Spelling.{spelling, unused};
ghost use Rattle.vol_inode.specs.Entry.{IsEntry, name_of};
ghost use Rattle.vol_inode.specs.declared.entry.Entry.{Entry};
ghost use Rattle.vol_dirs.specs.Slots.{slot_sector};
ghost use Rattle.vol_dirs.specs.Names.{slots_of, Names, IsFree, Shows};

use crate::Dirs;

/// A law: each serial that is held is that of a slot, and is held with one name in one directory.
pub fn each_serial_has_one_name(dirs: &Dirs)
    ensures first { (p : ℕ) (n : List ℕ) (s : ℕ) → Names dirs.now p n s → 1 ≤ s }
    ensures last { (p : ℕ) (n : List ℕ) (s : ℕ) → Names dirs.now p n s → s ≤ slots_of dirs.now }
    ensures parent { (p q : ℕ) (n m : List ℕ) (s : ℕ) → Names dirs.now p n s
        → Names dirs.now q m s → p ≡ q }
    ensures name { (p q : ℕ) (n m : List ℕ) (s : ℕ) → Names dirs.now p n s
        → Names dirs.now q m s → n ≡ m }
{}

/// A law: where a slot that isn't used is shown, nothing is held with its serial.
pub fn unused_slots_are_free(dirs: &Dirs)
    ensures { (version : Version) (image : Image) (slots s : ℕ)
        → Shows version image slots dirs.now → image (slot_sector s) ≡ unused → IsFree dirs.now s }
{}

/// A law: what is held shows any image with the same slots, whatever its other sectors are.
pub fn other_sectors_are_not_shown(dirs: &Dirs)
    ensures { (version : Version) (one other : Image) (slots : ℕ) → Shows version one slots dirs.now
        → ((s : ℕ) → 1 ≤ s → s ≤ slots → other (slot_sector s) ≡ one (slot_sector s))
        → Shows version other slots dirs.now }
{}

/// A law: an entry that is rewritten with the same kind, parent and name is shown as before.
pub fn rewritten_slots_are_shown(dirs: &Dirs)
    ensures { (version : Version) (one other : Image) (slots serial : ℕ) (d e : Entry)
        → Shows version one slots dirs.now → IsEntry version d → IsEntry version e
        → one (slot_sector serial) ≡ spelling d → other (slot_sector serial) ≡ spelling e
        → d.kind ≡ e.kind → d.parent ≡ e.parent → name_of d ≡ name_of e
        → ((s : ℕ) → 1 ≤ s → s ≤ slots → s ≢ serial → other (slot_sector s) ≡ one (slot_sector s))
        → Shows version other slots dirs.now }
{}

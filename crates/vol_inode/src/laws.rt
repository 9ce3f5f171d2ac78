//! Laws on entries.

ghost use Rattle.std.specs.Prelude.{◌≡◌, ◌≢◌, drop, replicate};
ghost use Rattle.vol_inode.specs.Entry.{IsEntry};
ghost use Rattle.vol_inode.specs.Spelling.{spelling};
ghost use Rattle.vol_inode.specs.declared.entry.Entry.{Entry};
ghost use Rattle.vol_inode.specs.declared.version.Version.{Version};
ghost use Rattle.vol_inode.specs.declared.version.Version.TheVariants.{Four};

/// A law: in versions 1 and 2 the sector of an entry ends in four zeros, since no file is long
/// enough for the last pointer.
pub fn older_entries_end_in_zeros()
    ensures { (version : Version) (e : Entry) → IsEntry version e → version ≢ Four
        → drop 508 (spelling e) ≡ replicate 4 0 }
{}

/// A law: what is right in an older version is right in version 4.
pub fn older_entries_are_right_in_4()
    ensures { (version : Version) (e : Entry) → IsEntry version e → IsEntry Four e }
{}

//! Laws on the sectors that files name.

ghost use Rattle.std.specs.Prelude.{◌≡◌, ◌≢◌, ◌≤◌, ℕ, length};
ghost use Rattle.std.specs.List.{Contains};
ghost use Rattle.vol_sector.specs.Disk.{Image};
ghost use Rattle.vol_inode.specs.Space.{need_of};
ghost use Rattle.vol_inode.specs.declared.entry.Entry.{Entry};
ghost use Rattle.vol_body.specs.Body.{BlockPosition, IsPosition, named, positions_of, bytes_of};
ghost use Rattle.vol_body.specs.Body.{IsBody, SameSectors, IsSameFile};
ghost use Rattle.vol_body.specs.Change.{NamesSector};
ghost use Rattle.vol_alloc.specs.Numbers.{AreDistinct};
ghost use Rattle.vol_body.specs.Survey.{sectors_named, IsTrimmed};
ghost use Rattle.vol_inode.specs.declared.version.TheConstants.{LARGEST_SIZE};

/// A law: where the sectors that a file names stay, it names the same ones, has the same bytes and
/// keeps its rules, whatever is written to others.
pub fn other_files_stay()
    ensures file { (one other : Image) (e : Entry) → SameSectors one other e
        → IsSameFile one other e }
    ensures bytes { (one other : Image) (e : Entry) → SameSectors one other e
        → e.size ≤ LARGEST_SIZE → bytes_of other e ≡ bytes_of one e }
    ensures rules { (one other : Image) (e : Entry) → SameSectors one other e → IsBody one e
        → IsBody other e }
{}

/// A law: a file names no more sectors than it needs by its size. All positions where it names one
/// stand in a list of that length.
pub fn names_at_most_what_it_needs()
    ensures length { (size : ℕ) → length (positions_of size) ≡ need_of size }
    ensures places { (content : Image) (e : Entry) (p : BlockPosition) → IsBody content e
        → IsPosition p → named content e p ≢ 0 → Contains (positions_of e.size) p }
{}

/// A law: a survey has the number of each sector that the file names, and no others.
pub fn survey_has_what_is_named()
    ensures each { (content : Image) (e : Entry) (p : BlockPosition) → IsPosition p
        → named content e p ≢ 0 → Contains (sectors_named content e) (named content e p) }
    ensures only { (content : Image) (e : Entry) (n : ℕ) → Contains (sectors_named content e) n
        → NamesSector content e n }
{}

/// A law: where a survey has no number twice and the file is trimmed, it keeps the rules on its
/// sectors.
pub fn survey_shows_the_rules()
    ensures { (content : Image) (e : Entry) → AreDistinct (sectors_named content e)
        → IsTrimmed content e → IsBody content e }
{}

/// A law: a survey of a file that keeps the rules on its sectors has no number twice.
pub fn survey_repeats_none()
    ensures { (content : Image) (e : Entry) → IsBody content e
        → AreDistinct (sectors_named content e) }
{}

//! Calls that remove what a path finds.

ghost use Rattle.std.specs.Prelude.{◌≡◌, true, Ok, Err, IfOk, OnOk, MatchResult};
ghost use Rattle.vol_sector.specs.Disk.{Leaves};
ghost use Rattle.vol_tree.specs.Calls.{directory_at, with_unit};
ghost use Rattle.vol_tree.specs.Clauses.{Answers, is_io};
ghost use Rattle.vol_tree.specs.Opened.{Keeps, GoesOn, ReflectsOr};
ghost use Rattle.path_walk.specs.Walk.{IsEntryOf};
ghost use Rattle.wasi_fd.specs.Table.{table_of};
ghost use Rattle.wasi_fd.specs.Rights.{bits_of};
ghost use Rattle.wasi_bodies.specs.World.{World, held_open};
ghost use Rattle.wasi_bodies.specs.Calls.{Answered};
ghost use Rattle.wasi_bodies.specs.host.Worlds.{VolumeStep};
ghost use Rattle.wasi_bodies.specs.internal.Entries.{KnowsEntries, errno_of, with_volume};
ghost use Rattle.wasi_bodies.specs.internal.paths.Walks.{StillWorks};
ghost use Rattle.wasi_bodies.specs.internal.Asking.{Asks};
ghost use Rattle.wasi_paths.specs.internal.paths.Removing.{found_at, removable as removable_row, removal_checked, is_kind, taken_out, remove as remove_row};
ghost use Rattle.wasi_paths.specs.internal.paths.Showing.{CanLend};

use crate::paths::reach_from;
use path_walk::{Reached, is_directory};
use vol_inode::Kind;
use vol_sector::Device;
use vol_tree::{Serial, Volume};
use wasi_bodies::errno::{BUSY, ISDIR, NOENT, NOTDIR, refused};
use wasi_fd::{Descriptors, Fd, Rights};
use wasm_store::{Errno, Memory, Shown};

/// What a path finds.
pub fn find<D: Device>(
    volume: &mut Volume<D>,
    descriptors: &Descriptors<'_>,
    memory: &Shown<'_>,
    fd: Fd,
    path: u32,
    len: u32,
    rights: Rights,
) -> Result<Serial, Errno>
    requires known { KnowsEntries D.honest volume.old (table_of descriptors.now) }
    requires lent { CanLend memory.now path len }
    ensures step { VolumeStep D.honest D.disk D.size D.failures D.goes_on volume.old volume.new }
    ensures io { errno_of result ≡ 29 → volume.new.failed ≡ true }
    ensures works { IfOk result (λ s. StillWorks D.honest D.disk D.size D.failures D.goes_on
        volume.old volume.new) }
    ensures entry { IfOk result (IsEntryOf D.honest volume.new) }
    ensures asks { D.honest volume.old.device → (w : World) → w.table ≡ table_of descriptors.now
        → w ≡ with_volume volume.old w → Asks
        (λ v. found_at v memory.now.bytes fd (bits_of rights) path len) w volume.new result }
{
    match reach_from(volume, descriptors, memory, fd, path, len, rights) {
        Ok(Reached::Found(serial)) => Ok(Serial::new(serial)),
        Ok(Reached::Missing { .. }) => Err(NOENT),
        Err(errno) => Err(errno),
    }
}

/// Whether some descriptor has the entry.
pub fn is_held(descriptors: &Descriptors<'_>, serial: Serial) -> bool
    ensures { (w : World) → w.table ≡ table_of descriptors.now → result ≡ held_open w serial }
{
    descriptors.holds(serial)
}

/// The checks on what a path finds: it is of this kind, and no descriptor has it.
#[tactic(auto, unfolding(wasi_bodies::specs::Checks::and_then, wasi_bodies::specs::Checks::guard))]
fn check_removal(kind: Kind, is_directory: bool, held: bool) -> Result<(), Errno>
    ensures checked { MatchResult result (λ u. removal_checked kind is_directory held ≡ Ok u)
        (λ e. removal_checked kind is_directory held ≡ Err e.0) }
    ensures kind { OnOk result (is_kind kind is_directory ≡ true) }
{
    match (kind, is_directory) {
        (Kind::Directory, false) => Err(NOTDIR),
        (Kind::File, true) => Err(ISDIR),
        _ if held => Err(BUSY),
        _ => Ok(()),
    }
}

/// What a path finds, where it is of this kind and no descriptor has it.
fn removable<D: Device>(
    volume: &mut Volume<D>,
    descriptors: &Descriptors<'_>,
    memory: &Shown<'_>,
    fd: Fd,
    path: u32,
    len: u32,
    rights: Rights,
    kind: Kind,
) -> Result<Serial, Errno>
    requires known { KnowsEntries D.honest volume.old (table_of descriptors.now) }
    requires lent { CanLend memory.now path len }
    ensures step { VolumeStep D.honest D.disk D.size D.failures D.goes_on volume.old volume.new }
    ensures io { errno_of result ≡ 29 → volume.new.failed ≡ true }
    ensures works { IfOk result (λ s. StillWorks D.honest D.disk D.size D.failures D.goes_on
        volume.old volume.new) }
    ensures entry { IfOk result (IsEntryOf D.honest volume.new) }
    ensures kind { D.honest volume.old.device → IfOk result
        (λ s. is_kind kind (directory_at volume.old.tree s) ≡ true) }
    ensures asks { D.honest volume.old.device → (w : World) → w.table ≡ table_of descriptors.now
        → w ≡ with_volume volume.old w → Asks
        (λ v. removable_row kind v memory.now.bytes fd (bits_of rights) path len) w volume.new result }
{
    let serial = match find(volume, descriptors, memory, fd, path, len, rights) {
        Ok(serial) => serial,
        Err(errno) => return Err(errno),
    };
    let is_directory = match is_directory(volume, serial) {
        Ok(is_directory) => is_directory,
        Err(errno) => return Err(refused(errno)),
    };
    match check_removal(kind, is_directory, is_held(descriptors, serial)) {
        Ok(()) => Ok(serial),
        Err(errno) => Err(errno),
    }
}

/// Takes out an entry of this kind. A directory that isn't empty is refused as `NotEmpty`, the root as `Invalid`. That no
/// descriptor has the entry was looked at by `removable`.
fn take_out<D: Device>(
    volume: &mut Volume<D>,
    kind: Kind,
    serial: Serial,
) -> Result<(), vol_tree::Errno>
    requires entry { IsEntryOf D.honest volume.old serial }
    requires kind { D.honest volume.old.device → is_kind kind (directory_at volume.old.tree serial)
        ≡ true }
    ensures answer { D.honest volume.old.device → Answers
        (with_unit (taken_out kind volume.old.tree serial)) volume.old.tree volume.new.tree result }
    ensures crash { D.honest volume.old.device → Leaves (D.disk volume.old.device)
        (D.disk volume.new.device) (ReflectsOr (D.disk volume.old.device) volume.old.numbers
        volume.old.tree) }
    ensures kept { Keeps D.honest D.size D.failures volume.old volume.new (is_io result) }
    ensures goes_on { GoesOn D.goes_on volume.old volume.new }
{
    match kind {
        Kind::Directory => volume.rmdir(serial),
        Kind::File => volume.unlink(serial),
    }
}

/// Takes out an entry of this kind that a path finds, over memory as it stands.
fn remove_entry<D: Device>(
    volume: &mut Volume<D>,
    descriptors: &Descriptors<'_>,
    memory: &Shown<'_>,
    fd: Fd,
    path: u32,
    len: u32,
    rights: Rights,
    kind: Kind,
) -> Result<(), Errno>
    requires known { KnowsEntries D.honest volume.old (table_of descriptors.now) }
    requires lent { CanLend memory.now path len }
    ensures step { VolumeStep D.honest D.disk D.size D.failures D.goes_on volume.old volume.new }
    ensures io { errno_of result ≡ 29 → volume.new.failed ≡ true }
    ensures answered { D.honest volume.old.device → (w : World) → w.table ≡ table_of descriptors.now
        → w ≡ with_volume volume.old w → Answered
        (λ v. remove_row kind v memory.now.bytes fd (bits_of rights) path len) w memory.now.bytes
        (with_volume volume.new w) memory.now.bytes (errno_of result) }
{
    match removable(volume, descriptors, memory, fd, path, len, rights, kind) {
        Ok(serial) => match take_out(volume, kind, serial) {
            Ok(()) => Ok(()),
            Err(errno) => Err(refused(errno)),
        },
        Err(errno) => Err(errno),
    }
}

/// `path_remove_directory(fd, path, length)` and `path_unlink_file(fd, path, length)`, by the kind of
/// the entries that they remove.
pub fn remove<D: Device>(
    volume: &mut Volume<D>,
    descriptors: &Descriptors<'_>,
    memory: &mut Memory,
    fd: Fd,
    path: u32,
    len: u32,
    rights: Rights,
    kind: Kind,
) -> Result<(), Errno>
    requires { KnowsEntries D.honest volume.old (table_of descriptors.now) }
    ensures step { VolumeStep D.honest D.disk D.size D.failures D.goes_on volume.old volume.new }
    ensures io { errno_of result ≡ 29 → volume.new.failed ≡ true }
    ensures answered { D.honest volume.old.device → (w : World) → w.table ≡ table_of descriptors.now
        → w ≡ with_volume volume.old w → Answered
        (λ v. remove_row kind v memory.old fd (bits_of rights) path len) w memory.old
        (with_volume volume.new w) memory.new (errno_of result) }
{
    let size = memory.len();
    let shown = Shown::new(memory.first_part(path as usize + len as usize), size);
    remove_entry(volume, descriptors, &shown, fd, path, len, rights, kind)
}

//! Calls on paths.
//!
//! Clauses that each call has. On any device: `step` (what a call leaves of the volume and of its crash images), `io` (29 is answered
//! only where the volume has failed), `works` (after an `Ok` it still works, and was only asked), `reached` (what is reached is an
//! entry). On one that keeps its model: `place` (what is missing may be made in its directory), `asks` (the answer is that of this
//! part of the call's row, which is its definition over the world, `row` of `specs/Calls.antt`): an `Ok` is what that part gives,
//! an `Err` has the number by which it refuses, or 29 where the volume fails. `w ≡ with_volume volume.old w` says that the world has
//! this volume.

pub mod opening;
pub mod removing;
pub mod renaming;

ghost use Rattle.std.specs.Prelude.{true, ◌≡◌, ◌⊎◌, ◌+◌, ◌≤◌, length, Ok, Err, MatchResult, IfOk, OnOk};
ghost use Rattle.vol_tree.specs.Clauses.{is_io};
ghost use Rattle.vol_tree.specs.Opened.{Keeps};
ghost use Rattle.wasi_bodies.specs.Calls.{Answered};
ghost use Rattle.wasm_store.specs.Bytes.{bytes_at};
ghost use Rattle.wasi_fd.specs.Table.{table_of};
ghost use Rattle.wasi_fd.specs.Rights.{bits_of};
ghost use Rattle.path_walk.specs.Walk.{IsEntryOf, IsReached, reached_as};
ghost use Rattle.wasi_bodies.specs.World.{World};
ghost use Rattle.wasi_bodies.specs.host.Worlds.{VolumeStep};
ghost use Rattle.wasi_bodies.specs.internal.Entries.{with_volume, KnowsEntries, errno_of};
ghost use Rattle.wasi_bodies.specs.internal.Asking.{Passes, Stops};
ghost use Rattle.wasi_bodies.specs.internal.paths.Walks.{StillWorks, ReachesFrom, Places, FindsBytes, starting_directory, reached_from};
ghost use Rattle.wasi_bodies.specs.Checks.{range as range_row};
ghost use Rattle.wasi_paths.specs.internal.paths.Showing.{CanLend};
ghost use Rattle.wasi_bodies.specs.paths.Rows.{path_filestat_get as stat_row, path_create_directory as create_row};

use path_walk::{Path, Reached, walk};
use vol_sector::Device;
use vol_tree::{Serial, Volume};
use wasi_bodies::checks::{DescriptorKinds, entry_at, write_bytes};
use wasi_bodies::descriptors::stat::stat_entry;
use wasi_bodies::errno::{EXIST, NOENT, refused};
use wasi_fd::{Descriptors, Fd, Opened, Rights};
use wasm_store::{Errno, Memory, Shown};

/// What a path of the guest reaches from a directory.
pub fn reach<'p, D: Device>(
    volume: &mut Volume<D>,
    directory: Serial,
    text: &'p [u8],
) -> Result<Reached<'p>, vol_tree::Errno>
    requires { IsEntryOf D.honest volume.old directory }
    ensures reaches { D.honest volume.old.device → (w : World) (o : _) (path : _)
        → o.serial ≡ directory → text.now ≡ path → w ≡ with_volume volume.old w
        → ReachesFrom volume.new w o path result }
    ensures kept { (volume.new ≡ volume.old) ⊎ Keeps D.honest D.size D.failures volume.old
        volume.new (is_io result) }
    ensures place { D.honest volume.old.device → Places volume.old.tree result }
    ensures works { IfOk result (λ r. StillWorks D.honest D.disk D.size D.failures D.goes_on
        volume.old volume.new) }
    ensures reached { IfOk result (IsReached D.honest volume.new) }
    ensures step { VolumeStep D.honest D.disk D.size D.failures D.goes_on volume.old volume.new }
    ensures io { is_io result ≡ true → volume.new.failed ≡ true }
{
    match Path::read(text) {
        Ok(path) => walk(volume, directory, &path),
        Err(errno) => Err(errno),
    }
}

/// Whether the range lies in memory, also one of no bytes.
#[tactic(auto, using(wasi_bodies::proofs::checks::Chains::guard_passes, wasi_bodies::proofs::checks::Chains::guard_fails))]
pub fn check_range(memory: &Shown<'_>, pointer: u32, len: u32) -> Result<(), Errno>
    ensures range { MatchResult result (λ u. range_row memory.now.bytes pointer len ≡ Ok u)
        (λ e. range_row memory.now.bytes pointer len ≡ Err e.0) }
    ensures inside { OnOk result (pointer + len ≤ length memory.now.bytes) }
{
    if pointer as usize + len as usize <= memory.len() {
        Ok(())
    } else {
        Err(Errno::FAULT)
    }
}

/// The checks of a call on a path before it is walked: an open directory whose descriptor has the
/// rights, and a path that lies in memory.
#[tactic(auto, using(wasi_bodies::proofs::checks::Chains::goes_on, wasi_bodies::proofs::checks::Chains::stops))]
pub fn enter<'t, 'm>(
    descriptors: &Descriptors<'t>,
    memory: &Shown<'m>,
    fd: Fd,
    path: u32,
    len: u32,
    rights: Rights,
) -> Result<(Opened<'t>, &'m [u8]), Errno>
    requires lent { CanLend memory.now path len }
    ensures row { (w : World) → w.table ≡ table_of descriptors.now → MatchResult result
        (λ p. starting_directory w memory.now.bytes fd (bits_of rights) path len ≡ Ok p.0)
        (λ e. starting_directory w memory.now.bytes fd (bits_of rights) path len ≡ Err e.0) }
    ensures text { IfOk result (λ p. p.1.now ≡ bytes_at memory.now.bytes path len) }
{
    let opened = entry_at(descriptors, fd, DescriptorKinds::Directories, rights)?;
    check_range(memory, path, len)?;
    match memory.slice(path, len) {
        Some(text) => Ok((opened, text)),
        None => Err(Errno::FAULT),
    }
}

/// What a path of the guest reaches from an open directory whose descriptor has the rights.
pub fn reach_from<'m, D: Device>(
    volume: &mut Volume<D>,
    descriptors: &Descriptors<'_>,
    memory: &Shown<'m>,
    fd: Fd,
    path: u32,
    len: u32,
    rights: Rights,
) -> Result<Reached<'m>, Errno>
    requires known { KnowsEntries D.honest volume.old (table_of descriptors.now) }
    requires lent { CanLend memory.now path len }
    ensures step { VolumeStep D.honest D.disk D.size D.failures D.goes_on volume.old volume.new }
    ensures io { errno_of result ≡ 29 → volume.new.failed ≡ true }
    ensures works { IfOk result (λ r. StillWorks D.honest D.disk D.size D.failures D.goes_on
        volume.old volume.new) }
    ensures reached { IfOk result (IsReached D.honest volume.new) }
    ensures place { D.honest volume.old.device → IfOk result (λ r. Places volume.old.tree (Ok r)) }
    ensures asks { D.honest volume.old.device → (w : World) → w.table ≡ table_of descriptors.now
        → w ≡ with_volume volume.old w → MatchResult result
        (λ r. Passes (λ v. reached_from v memory.now.bytes fd (bits_of rights) path len) w volume.new
        (reached_as r)) (λ e. Stops (λ v. reached_from v memory.now.bytes fd (bits_of rights) path len) w
        volume.new e.0) }
{
    let (directory, text) = match enter(descriptors, memory, fd, path, len, rights) {
        Ok(entered) => entered,
        Err(errno) => return Err(errno),
    };
    match reach(volume, Serial::new(directory.serial), text) {
        Ok(reached) => Ok(reached),
        Err(errno) => Err(refused(errno)),
    }
}

/// What is told of the entry that a path of the guest reaches.
fn stat_path<D: Device>(
    volume: &mut Volume<D>,
    descriptors: &Descriptors<'_>,
    memory: &Shown<'_>,
    fd: Fd,
    path: u32,
    len: u32,
    result_at: u32,
) -> Result<[u8; 64], Errno>
    requires known { KnowsEntries D.honest volume.old (table_of descriptors.now) }
    requires lent { CanLend memory.now path len }
    ensures step { VolumeStep D.honest D.disk D.size D.failures D.goes_on volume.old volume.new }
    ensures io { errno_of result ≡ 29 → volume.new.failed ≡ true }
    ensures inside { OnOk result (result_at + 64 ≤ length memory.now.bytes) }
    ensures finds { D.honest volume.old.device → (w : World) → w.table ≡ table_of descriptors.now
        → w ≡ with_volume volume.old w → FindsBytes
        (λ v. stat_row v memory.now.bytes fd path len result_at) w memory.now.bytes volume.new result_at
        result }
{
    let (directory, text) = match enter(
        descriptors,
        memory,
        fd,
        path,
        len,
        Rights::PATH_FILESTAT_GET,
    ) {
        Ok(entered) => entered,
        Err(errno) => return Err(errno),
    };
    if let Err(errno) = check_range(memory, result_at, 64) {
        return Err(errno);
    }
    match reach(volume, Serial::new(directory.serial), text) {
        Ok(Reached::Found(serial)) => match stat_entry(volume, Serial::new(serial)) {
            Ok(bytes) => Ok(bytes),
            Err(errno) => Err(refused(errno)),
        },
        Ok(Reached::Missing { .. }) => Err(NOENT),
        Err(errno) => Err(refused(errno)),
    }
}

/// `path_filestat_get(fd, flags, path, length, result)`. The flags have no effect.
pub fn path_filestat_get<D: Device>(
    volume: &mut Volume<D>,
    descriptors: &Descriptors<'_>,
    memory: &mut Memory,
    fd: Fd,
    path: u32,
    len: u32,
    result_at: u32,
) -> Result<(), Errno>
    requires { KnowsEntries D.honest volume.old (table_of descriptors.now) }
    ensures step { VolumeStep D.honest D.disk D.size D.failures D.goes_on volume.old volume.new }
    ensures io { errno_of result ≡ 29 → volume.new.failed ≡ true }
    ensures answered { D.honest volume.old.device → (w : World) → w.table ≡ table_of descriptors.now
        → w ≡ with_volume volume.old w → Answered (λ v. stat_row v memory.old fd path len result_at)
        w memory.old (with_volume volume.new w) memory.new (errno_of result) }
{
    let size = memory.len();
    let shown = Shown::new(memory.first_part(path as usize + len as usize), size);
    match stat_path(volume, descriptors, &shown, fd, path, len, result_at) {
        Ok(bytes) => {
            write_bytes(memory, result_at, &bytes);
            Ok(())
        }
        Err(errno) => Err(errno),
    }
}

/// `path_create_directory(fd, path, length)` over memory as it stands.
fn create_directory<D: Device>(
    volume: &mut Volume<D>,
    descriptors: &Descriptors<'_>,
    memory: &Shown<'_>,
    fd: Fd,
    path: u32,
    len: u32,
) -> Result<(), Errno>
    requires known { KnowsEntries D.honest volume.old (table_of descriptors.now) }
    requires lent { CanLend memory.now path len }
    ensures step { VolumeStep D.honest D.disk D.size D.failures D.goes_on volume.old volume.new }
    ensures io { errno_of result ≡ 29 → volume.new.failed ≡ true }
    ensures answered { D.honest volume.old.device → (w : World) → w.table ≡ table_of descriptors.now
        → w ≡ with_volume volume.old w → Answered (λ v. create_row v memory.now.bytes fd path len) w
        memory.now.bytes (with_volume volume.new w) memory.now.bytes (errno_of result) }
{
    let right = Rights::PATH_CREATE_DIRECTORY;
    match reach_from(volume, descriptors, memory, fd, path, len, right) {
        Ok(Reached::Missing { parent, name }) => match volume.create_dir(
            Serial::new(parent),
            name,
        ) {
            Ok(_) => Ok(()),
            Err(errno) => Err(refused(errno)),
        },
        Ok(Reached::Found(_)) => Err(EXIST),
        Err(errno) => Err(errno),
    }
}

/// `path_create_directory(fd, path, length)`.
pub fn path_create_directory<D: Device>(
    volume: &mut Volume<D>,
    descriptors: &Descriptors<'_>,
    memory: &mut Memory,
    fd: Fd,
    path: u32,
    len: u32,
) -> Result<(), Errno>
    requires { KnowsEntries D.honest volume.old (table_of descriptors.now) }
    ensures step { VolumeStep D.honest D.disk D.size D.failures D.goes_on volume.old volume.new }
    ensures io { errno_of result ≡ 29 → volume.new.failed ≡ true }
    ensures answered { D.honest volume.old.device → (w : World) → w.table ≡ table_of descriptors.now
        → w ≡ with_volume volume.old w → Answered (λ v. create_row v memory.old fd path len) w
        memory.old (with_volume volume.new w) memory.new (errno_of result) }
{
    let size = memory.len();
    let shown = Shown::new(memory.first_part(path as usize + len as usize), size);
    create_directory(volume, descriptors, &shown, fd, path, len)
}

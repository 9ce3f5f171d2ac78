//! Positions of files.

ghost use Rattle.std.specs.Prelude.{true, ◌≡◌, ◌<◌, ◌≤◌, length, ℕ, ◌^◌, ◌==◌, ◌&&◌, ◌||◌, Ok, Err, MatchResult, IfOk, IfErr, OnOk, ◌+◌, IsTrue, nat_lt};
ghost use Rattle.vol_sector.specs.Disk.{Leaves};
ghost use Rattle.vol_tree.specs.Calls.{bytes_at};
ghost use Rattle.vol_tree.specs.Clauses.{Tells, is_io};
ghost use Rattle.vol_tree.specs.Opened.{Keeps, GoesOn};
ghost use Rattle.wasi_fd.specs.Table.{table_of, with_at};
ghost use Rattle.wasi_bodies.specs.World.{World, moved_to};
ghost use Rattle.wasi_bodies.specs.Checks.{guard, has};
ghost use Rattle.wasi_bodies.specs.descriptors.Rows.{last_position, fd_seek as seek_row, fd_tell as tell};
ghost use Rattle.wasi_bodies.specs.Calls.{Answered, Answers, is_entry};
ghost use Rattle.wasi_bodies.specs.host.Worlds.{VolumeStep};
ghost use Rattle.wasi_bodies.specs.internal.Entries.{KnowsEntries, NoMoreEntries, IsFileOf, errno_of, with_volume, with_table};
ghost use Rattle.wasi_bodies.specs.internal.descriptors.Positions.{seekable, position_at, TellsFrom, FailsFrom, IsOpenAs};

use crate::checks::{DescriptorKinds, check_range, check_that, described, opened_of, write_bytes};
use crate::errno::{NOTCAPABLE, OVERFLOW, refused};
use crate::numbers::le64;
use bitflags::Flags;
use vol_sector::Device;
use vol_tree::{Serial, Volume};
use wasi_fd::{Descriptor, Descriptors, Fd, Opened, Rights};
use wasm_store::{Errno, Memory};

/// The last position.
const LAST: u64 = (1 << 63) - 1;

/// Whether the descriptor may be moved so; one that may only be asked where it stands may be moved by nothing.
#[tactic(auto, using(crate::proofs::checks::Chains::guard_passes, crate::proofs::checks::Chains::guard_fails))]
fn check_seek(descriptor: &Descriptor<'_>, delta: u64, whence: u32) -> Result<(), Errno>
    ensures { MatchResult result (λ u. guard
        (has descriptor.now (2 ^ 2) || ((delta == 0) && (whence == 1) && has descriptor.now
        (2 ^ 5))) 76 ≡ Ok u) (λ e. guard (has descriptor.now (2 ^ 2) ||
        ((delta == 0) && (whence == 1) && has descriptor.now (2 ^ 5))) 76 ≡ Err e.0) }
{
    let base = descriptor.base();
    if base.contains(Rights::FD_SEEK)
        || (delta == 0 && whence == 1 && base.contains(Rights::FD_TELL))
    {
        Ok(())
    } else {
        Err(NOTCAPABLE)
    }
}

/// The open file that is to be moved.
#[tactic(auto, using(crate::proofs::checks::Chains::goes_on, crate::proofs::checks::Chains::stops))]
fn file_to_move<'t>(
    descriptors: &Descriptors<'t>,
    memory: &Memory,
    fd: Fd,
    delta: u64,
    whence: u32,
    result_at: u32,
) -> Result<Opened<'t>, Errno>
    ensures whence { OnOk result (whence ≤ 2) }
    ensures inside { OnOk result (result_at + 8 ≤ length memory.now) }
    ensures checked { (w : World) → w.table ≡ table_of descriptors.now → MatchResult result
        (λ o. seekable w memory.now fd delta whence result_at ≡ Ok o)
        (λ e. seekable w memory.now fd delta whence result_at ≡ Err e.0) }
{
    let descriptor = described(descriptors, fd)?;
    DescriptorKinds::Files.check(&descriptor)?;
    check_seek(&descriptor, delta, whence)?;
    check_that(whence <= 2, Errno::INVAL)?;
    check_range(memory, result_at, 8)?;
    opened_of(descriptor)
}

/// The size of a file.
pub fn size_of<D: Device>(volume: &mut Volume<D>, serial: Serial) -> Result<u32, vol_tree::Errno>
    requires { IsFileOf D.honest volume.old serial }
    ensures answer { D.honest volume.old.device
        → Tells (length (bytes_at volume.old.tree serial)) volume.old.tree volume.new.tree result }
    ensures crash { D.honest volume.old.device
        → Leaves (D.disk volume.old.device) (D.disk volume.new.device) (λ c. ⊥) }
    ensures kept { Keeps D.honest D.size D.failures volume.old volume.new (is_io result) }
    ensures goes_on { GoesOn D.goes_on volume.old volume.new }
{
    match volume.stat(serial) {
        Ok(stat) => Ok(stat.size),
        Err(errno) => Err(errno),
    }
}

/// Where a position is counted from: 0 the start, 1 where the file stands, 2 its end.
fn seek_from<D: Device>(
    volume: &mut Volume<D>,
    opened: &Opened<'_>,
    whence: u32,
) -> Result<u64, vol_tree::Errno>
    requires file { IsFileOf D.honest volume.old opened.now.serial }
    requires known { whence ≤ 2 }
    ensures step { VolumeStep D.honest D.disk D.size D.failures D.goes_on volume.old volume.new }
    ensures io { is_io result ≡ true → volume.new.failed ≡ true }
    ensures told { (IsTrue (nat_lt 1 whence) → D.honest volume.old.device) → (w : World)
        → w ≡ with_volume volume.old w
        → IfOk result (λ from. TellsFrom volume.new w opened.now whence from) }
    ensures failed { (IsTrue (nat_lt 1 whence) → D.honest volume.old.device) → (w : World)
        → w ≡ with_volume volume.old w
        → IfErr result (λ e. FailsFrom volume.old volume.new w opened.now whence e) }
{
    match whence {
        0 => Ok(0),
        1 => Ok(opened.position),
        _ => match size_of(volume, Serial::new(opened.serial)) {
            Ok(size) => Ok(u64::from(size)),
            Err(errno) => Err(errno),
        },
    }
}

/// The place, where it is a position.
fn in_reach(place: u64) -> Result<u64, Errno>
    ensures near { IfOk result (λ at. (at ≡ place) × (place ≤ last_position)) }
    ensures far { IfErr result (λ e. (e.0 ≡ 61) × (last_position < place)) }
{
    if place <= LAST {
        Ok(place)
    } else {
        Err(OVERFLOW)
    }
}

/// The place a signed distance away, where it is a position.
fn position_at(from: u64, delta: u64) -> Result<u64, Errno>
    ensures { MatchResult result (λ at. position_at from delta ≡ Ok at)
        (λ e. position_at from delta ≡ Err e.0) }
{
    if delta <= LAST {
        in_reach(from.saturating_add(delta))
    } else {
        let distance = u64::MAX - delta + 1;
        if from < distance {
            return Err(Errno::INVAL);
        }
        in_reach(from - distance)
    }
}

/// Lets an open file stand at another position.
pub fn move_to<'t>(descriptors: &mut Descriptors<'t>, fd: Fd, opened: &Opened<'t>, position: u64)
    requires { IsOpenAs (table_of descriptors.old) fd opened.now }
    ensures moved { (k : ℕ) → table_of descriptors.new k ≡ with_at fd (moved_to opened.now position)
        (table_of descriptors.old) k }
    ensures entries { NoMoreEntries (table_of descriptors.old) (table_of descriptors.new) }
{
    let moved = Opened {
        position,
        ..*opened
    };
    match descriptors.replace(fd, Descriptor::Entry(moved)) {
        Ok(()) => {}
        Err(_) => unreachable!(),
    }
}

/// `fd_seek(fd, delta, whence, result)`.
pub fn fd_seek<D: Device>(
    volume: &mut Volume<D>,
    descriptors: &mut Descriptors<'_>,
    memory: &mut Memory,
    fd: Fd,
    delta: u64,
    whence: u32,
    result_at: u32,
) -> Result<(), Errno>
    requires { KnowsEntries D.honest volume.old (table_of descriptors.old) }
    ensures step { VolumeStep D.honest D.disk D.size D.failures D.goes_on volume.old volume.new }
    ensures io { errno_of result ≡ 29 → volume.new.failed ≡ true }
    ensures entries { NoMoreEntries (table_of descriptors.old) (table_of descriptors.new) }
    ensures answered { (IsTrue (is_entry (table_of descriptors.old fd) && nat_lt 1 whence)
        → D.honest volume.old.device) → (w : World) → w.table ≡ table_of descriptors.old
        → w ≡ with_volume volume.old w → Answered
        (λ v. seek_row v memory.old fd delta whence result_at) w memory.old
        (with_table (table_of descriptors.new) (with_volume volume.new w)) memory.new
        (errno_of result) }
{
    let opened = match file_to_move(descriptors, memory, fd, delta, whence, result_at) {
        Ok(opened) => opened,
        Err(errno) => return Err(errno),
    };
    let from = match seek_from(volume, &opened, whence) {
        Ok(from) => from,
        Err(errno) => return Err(refused(errno)),
    };
    match position_at(from, delta) {
        Ok(at) => {
            move_to(descriptors, fd, &opened, at);
            write_bytes(memory, result_at, &le64(at));
            Ok(())
        }
        Err(errno) => Err(errno),
    }
}

/// Whether the descriptor may be asked where it stands.
#[tactic(auto, using(crate::proofs::checks::Chains::guard_passes, crate::proofs::checks::Chains::guard_fails))]
fn check_tell(descriptor: &Descriptor<'_>) -> Result<(), Errno>
    ensures { MatchResult result (λ u. guard
        (has descriptor.now (2 ^ 2) || has descriptor.now (2 ^ 5)) 76 ≡ Ok u)
        (λ e. guard (has descriptor.now (2 ^ 2) || has descriptor.now (2 ^ 5)) 76 ≡ Err e.0) }
{
    let base = descriptor.base();
    if base.contains(Rights::FD_SEEK) || base.contains(Rights::FD_TELL) {
        Ok(())
    } else {
        Err(NOTCAPABLE)
    }
}

/// `fd_tell(fd, result)`.
#[tactic(auto, using(crate::proofs::checks::Chains::goes_on, crate::proofs::checks::Chains::stops))]
pub fn fd_tell(
    descriptors: &Descriptors<'_>,
    memory: &mut Memory,
    fd: Fd,
    result_at: u32,
) -> Result<(), Errno>
    ensures { (w : World) → w.table ≡ table_of descriptors.now
        → Answers (tell w memory.old fd result_at) w memory.old w memory.new (errno_of result) }
{
    let descriptor = described(descriptors, fd)?;
    DescriptorKinds::Files.check(&descriptor)?;
    check_tell(&descriptor)?;
    check_range(memory, result_at, 8)?;
    let opened = opened_of(descriptor)?;
    write_bytes(memory, result_at, &le64(opened.position));
    Ok(())
}

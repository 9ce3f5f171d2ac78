//! Bytes that a call writes to files and streams.

ghost use Rattle.std.specs.Prelude.{◌≡◌, ◌⊎◌, ◌≤◌, ◌+◌, ◌^◌, length, take, true, IsTrue, IsFalse, Ok, Err, Some, IfOk, IfErr, MatchResult};
ghost use Rattle.std.specs.List.{list_all};
ghost use Rattle.vol_sector.specs.Disk.{Leaves};
ghost use Rattle.vol_tree.specs.declared.errno.Errno.TheVariants as vol_errno;
ghost use Rattle.vol_tree.specs.Clauses.{Tells, is_io};
ghost use Rattle.vol_tree.specs.Opened.{Keeps, GoesOn, ReflectsOr, geometry};
ghost use Rattle.vol_tree.specs.Calls.{bytes_at, written as tree_with};
ghost use Rattle.wasi_fd.specs.Table.{table_of};
ghost use Rattle.wasi_bodies.specs.World.{World};
ghost use Rattle.wasi_bodies.specs.Checks.{is_inside, gathered, only_files, entry_at as entry};
ghost use Rattle.wasi_bodies.specs.Calls.{Answered};
ghost use Rattle.wasi_bodies.specs.host.Worlds.{VolumeStep};
ghost use Rattle.wasi_bodies.specs.internal.Entries.{IsFileOf, NoMoreEntries, errno_of, with_volume, with_table};
ghost use Rattle.wasi_bodies.specs.internal.checks.Buffers.{list_of, AreUsable};
ghost use Rattle.wasi_bodies.specs.internal.files.Writing.{written_at_offset, written_on, written_to};
ghost use Rattle.wasi_bodies.specs.internal.descriptors.Positions.{IsOpenAs};
ghost use Rattle.wasi_bodies.specs.declared.checks.buffers.TheConstants.{MOST_BUFFERS};

use crate::checks::buffers::{Request, lend_buffers, total_len};
use crate::checks::{DescriptorKinds, entry_at, write_bytes};
use crate::descriptors::positions::{move_to, size_of};
use crate::errno::refused;
use crate::numbers::le32;
use bitflags::Flags;
use vol_body::PIECE;
use vol_sector::Device;
use vol_tree::{MemorySpan, Serial, Source, Volume};
use wasi_fd::{Descriptor, Descriptors, Fd, Opened, Rights};
use wasm_store::{Errno, Memory};

/// Writes what stands in the buffers to a file, or as much of it as is written at once, and says how many bytes that is.
fn put_bytes<D: Device>(
    volume: &mut Volume<D>,
    serial: Serial,
    at: u64,
    memory: &[u8],
    buffers: &[MemorySpan],
) -> Result<u32, vol_tree::Errno>
    requires file { IsFileOf D.honest volume.old serial }
    requires few { length buffers.now ≤ MOST_BUFFERS }
    requires inside { list_all (is_inside memory.now) (list_of buffers.now) ≡ true }
    ensures written { D.honest volume.old.device → IfOk result
        (λ n. (n ≡ length (take PIECE (gathered memory.now (list_of buffers.now))))
        × (tree_with (geometry volume.old.numbers) volume.old.tree serial at
        (take PIECE (gathered memory.now (list_of buffers.now))) ≡ Ok volume.new.tree)) }
    ensures refused { D.honest volume.old.device → IfErr result
        (λ e. (volume.new.tree ≡ volume.old.tree)
        × ((tree_with (geometry volume.old.numbers) volume.old.tree serial at
        (take PIECE (gathered memory.now (list_of buffers.now))) ≡ Err e) ⊎ (e ≡ vol_errno.Io))) }
    ensures crash { D.honest volume.old.device
        → Leaves (D.disk volume.old.device) (D.disk volume.new.device)
        (ReflectsOr (D.disk volume.old.device) volume.old.numbers volume.old.tree) }
    ensures kept { Keeps D.honest D.size D.failures volume.old volume.new (is_io result) }
    ensures goes_on { GoesOn D.goes_on volume.old volume.new }
{
    let len = total_len(buffers).min(PIECE as u64) as u32;
    let bytes = Source::gather(memory, buffers, len as usize);
    match volume.write_from(serial, at, &bytes) {
        Ok(()) => Ok(len),
        Err(errno) => Err(errno),
    }
}

/// An open file that can be written at a place of its own.
pub fn file_to_write<'t>(descriptors: &Descriptors<'t>, fd: Fd) -> Result<Opened<'t>, Errno>
    ensures { (w : World) → w.table ≡ table_of descriptors.now → MatchResult result
        (λ o. entry w fd only_files (2 ^ 6 + 2 ^ 2) ≡ Ok o)
        (λ e. entry w fd only_files (2 ^ 6 + 2 ^ 2) ≡ Err e.0) }
{
    let rights = Rights::FD_WRITE.union(Rights::FD_SEEK);
    entry_at(descriptors, fd, DescriptorKinds::Files, rights)
}

/// Writes what stands in the buffers to an open file at a place, and then how many bytes that is.
pub fn write_at<D: Device>(
    volume: &mut Volume<D>,
    memory: &mut Memory,
    opened: &Opened<'_>,
    at: u64,
    buffers: &[MemorySpan],
    result_at: u32,
) -> Result<(), Errno>
    requires file { IsFileOf D.honest volume.old opened.now.serial }
    requires few { length buffers.now ≤ MOST_BUFFERS }
    requires usable { AreUsable memory.old (list_of buffers.now) result_at }
    ensures step { VolumeStep D.honest D.disk D.size D.failures D.goes_on volume.old volume.new }
    ensures io { errno_of result ≡ 29 → volume.new.failed ≡ true }
    ensures answered { D.honest volume.old.device → (w : World) → w ≡ with_volume volume.old w
        → Answered (λ v. written_at_offset v opened.now at
        (gathered memory.old (list_of buffers.now)) result_at) w memory.old
        (with_volume volume.new w) memory.new (errno_of result) }
{
    let bytes = lend_buffers(memory, buffers);
    match put_bytes(volume, Serial::new(opened.serial), at, bytes, buffers) {
        Ok(len) => {
            write_bytes(memory, result_at, &le32(len));
            Ok(())
        }
        Err(errno) => Err(refused(errno)),
    }
}

/// The open file, standing where a write begins: at its end with append, else where it stands.
fn where_it_writes<'t, D: Device>(
    volume: &mut Volume<D>,
    opened: &Opened<'t>,
) -> Result<Opened<'t>, vol_tree::Errno>
    requires { IsFileOf D.honest volume.old opened.now.serial }
    ensures stays { IsFalse opened.now.append → (volume.new ≡ volume.old)
        × (result ≡ Ok opened.now) }
    ensures at_end { IsTrue opened.now.append → D.honest volume.old.device
        → Tells (record opened.now {
          position = length
              (bytes_at volume.old.tree opened.now.serial);
        }) volume.old.tree volume.new.tree result }
    ensures kept { IsTrue opened.now.append → Keeps D.honest D.size D.failures volume.old volume.new
        (is_io result) }
    ensures asked { IsTrue opened.now.append → D.honest volume.old.device
        → Leaves (D.disk volume.old.device) (D.disk volume.new.device) (λ c. ⊥) }
    ensures moved { IfOk result (λ s. s ≡ record opened.now { position = s.position }) }
    ensures step { VolumeStep D.honest D.disk D.size D.failures D.goes_on volume.old volume.new }
    ensures io { is_io result ≡ true → volume.new.failed ≡ true }
{
    if !opened.append {
        return Ok(*opened);
    }
    match size_of(volume, Serial::new(opened.serial)) {
        Ok(size) => Ok(Opened {
            position: u64::from(size),
            ..*opened
        }),
        Err(errno) => Err(errno),
    }
}

/// Writes what stands in the buffers to an open file where it stands, which moves after it, and then how many bytes
/// that is.
fn write_on<'t, D: Device>(
    volume: &mut Volume<D>,
    descriptors: &mut Descriptors<'t>,
    memory: &mut Memory,
    opened: &Opened<'t>,
    request: &Request,
    buffers: &[MemorySpan],
) -> Result<(), Errno>
    requires file { IsFileOf D.honest volume.old opened.now.serial }
    requires open { IsOpenAs (table_of descriptors.old) request.now.fd opened.now }
    requires few { length buffers.now ≤ MOST_BUFFERS }
    requires usable { AreUsable memory.old (list_of buffers.now) request.now.result_at }
    ensures step { VolumeStep D.honest D.disk D.size D.failures D.goes_on volume.old volume.new }
    ensures io { errno_of result ≡ 29 → volume.new.failed ≡ true }
    ensures entries { NoMoreEntries (table_of descriptors.old) (table_of descriptors.new) }
    ensures answered { D.honest volume.old.device → (w : World) → w.table ≡ table_of descriptors.old
        → w ≡ with_volume volume.old w → Answered
        (λ v. written_on v request.now.fd opened.now (gathered memory.old (list_of buffers.now))
        request.now.result_at) w memory.old (with_table (table_of descriptors.new)
        (with_volume volume.new w)) memory.new (errno_of result) }
{
    let serial = Serial::new(opened.serial);
    let bytes = lend_buffers(memory, buffers);
    match put_bytes(volume, serial, opened.position, bytes, buffers) {
        Ok(len) => {
            if len > 0 {
                let past = opened.position.saturating_add(u64::from(len));
                move_to(descriptors, request.fd, opened, past);
            }
            write_bytes(memory, request.result_at, &le32(len));
            Ok(())
        }
        Err(errno) => Err(refused(errno)),
    }
}

/// Writes what stands in the buffers to an open file, and then how many bytes that is.
pub fn write_file<'t, D: Device>(
    volume: &mut Volume<D>,
    descriptors: &mut Descriptors<'t>,
    memory: &mut Memory,
    opened: &Opened<'t>,
    request: &Request,
    buffers: &[MemorySpan],
) -> Result<(), Errno>
    requires file { IsFileOf D.honest volume.old opened.now.serial }
    requires open { table_of descriptors.old request.now.fd ≡ Some (Descriptor.Entry opened.now) }
    requires few { length buffers.now ≤ MOST_BUFFERS }
    requires usable { AreUsable memory.old (list_of buffers.now) request.now.result_at }
    ensures step { VolumeStep D.honest D.disk D.size D.failures D.goes_on volume.old volume.new }
    ensures io { errno_of result ≡ 29 → volume.new.failed ≡ true }
    ensures entries { NoMoreEntries (table_of descriptors.old) (table_of descriptors.new) }
    ensures answered { D.honest volume.old.device → (w : World) → w.table ≡ table_of descriptors.old
        → w ≡ with_volume volume.old w → Answered
        (λ v. written_to v request.now.fd (Descriptor.Entry opened.now)
        (gathered memory.old (list_of buffers.now)) request.now.result_at) w memory.old
        (with_table (table_of descriptors.new) (with_volume volume.new w)) memory.new
        (errno_of result) }
{
    match where_it_writes(volume, opened) {
        Ok(standing) => write_on(volume, descriptors, memory, &standing, request, buffers),
        Err(errno) => Err(refused(errno)),
    }
}

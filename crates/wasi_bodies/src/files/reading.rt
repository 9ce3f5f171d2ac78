//! Bytes that a call reads from files and streams.

ghost use Rattle.std.specs.Prelude.{◌≡◌, ◌<◌, ◌≤◌, ◌+◌, ◌-◌, ◌^◌, min, true, false, length, take, drop, Ok, Err, Some, IfOk, IfErr, OnOk, MatchResult};
ghost use Rattle.std.specs.List.{list_all};
ghost use Rattle.vol_tree.specs.declared.errno.Errno.TheVariants as vol_errno;
ghost use Rattle.vol_tree.specs.Clauses.{is_io};
ghost use Rattle.vol_tree.specs.Calls.{bytes_at, read_bytes};
ghost use Rattle.wasm_store.specs.Bytes.{written};
ghost use Rattle.wasi_fd.specs.Table.{table_of};
ghost use Rattle.wasi_bodies.specs.World.{World};
ghost use Rattle.wasi_bodies.specs.Checks.{total, is_inside, scattered, put, only_files, entry_at as entry};
ghost use Rattle.wasi_bodies.specs.Calls.{IsMixed, Answered};
ghost use Rattle.wasi_bodies.specs.host.Worlds.{VolumeStep};
ghost use Rattle.wasi_bodies.specs.internal.Entries.{IsFileOf, NoMoreEntries, errno_of, with_volume, with_table};
ghost use Rattle.path_walk.specs.Walk.{Asked};
ghost use Rattle.wasi_bodies.specs.internal.checks.Buffers.{list_of, AreUsable};
ghost use Rattle.wasi_bodies.specs.internal.files.Reading.{limited_buffers, IsStretch, IsBegun, BufferFilled, BufferBegun, wanted, received, read_into, read_file_to};
ghost use Rattle.wasi_bodies.specs.declared.checks.buffers.TheConstants.{MOST_BUFFERS};

use crate::checks::buffers::{Request, total_len};
use crate::checks::{DescriptorKinds, entry_at, write_bytes};
use crate::descriptors::positions::{move_to, size_of};
use crate::errno::refused;
use crate::numbers::le32;
use bitflags::Flags;
use vol_sector::Device;
use vol_tree::{MemorySpan, Serial, Volume};
use wasi_fd::{Descriptor, Descriptors, Fd, Opened, Rights};
use wasm_store::{Errno, Memory};

/// Cuts the buffers to this many bytes in all.
pub fn cut_to(buffers: &mut [MemorySpan], len: u32)
    ensures { list_of buffers.new ≡ limited_buffers len (list_of buffers.old) }
{
    let mut left = len;
    for index in 0..buffers.len() {
        let taken = buffers[index].len.min(left);
        buffers[index].len = taken;
        left -= taken;
    }
}

/// What holds of the places from one on, up to another.
#[derive(Clone, Copy)]
enum Stretch {
    /// They are in later buffers.
    Covered(usize),
    /// None of them is.
    Free(usize),
}

/// How far the places from one on are all in later buffers, or none of them is.
fn stretch_from(at: usize, end: usize, later: &[MemorySpan]) -> Stretch
    requires { at < end }
    ensures { IsStretch at end (list_of later.now) result }
{
    let mut until = end;
    for buffer in later {
        let start = buffer.pointer as usize;
        let past = start + buffer.len as usize;
        if start <= at && at < past {
            return Stretch::Covered(past.min(end));
        }
        if at < start && start < until {
            until = start;
        }
    }
    Stretch::Free(until)
}

/// Reads bytes of a file into memory, from a place on. Only where all of them are in the file is anything said of what
/// stands in memory then.
fn read_part<D: Device>(
    volume: &mut Volume<D>,
    serial: Serial,
    at: u64,
    memory: &mut Memory,
    start: usize,
    len: usize,
) -> Result<(), vol_tree::Errno>
    requires file { IsFileOf D.honest volume.old serial }
    requires inside { start + len ≤ length memory.old }
    ensures long { length memory.new ≡ length memory.old }
    ensures read { D.honest volume.old.device → at + len ≤ length (bytes_at volume.old.tree serial)
        → IfOk result (λ _. memory.new ≡ written memory.old start
        (read_bytes volume.old.tree serial at len)) }
    ensures broke { D.honest volume.old.device → at + len ≤ length (bytes_at volume.old.tree serial)
        → IfErr result (λ e. (e ≡ vol_errno.Io)
        × IsBegun memory.old start (read_bytes volume.old.tree serial at len) memory.new) }
    ensures asked { Asked D.honest D.disk D.size D.failures D.goes_on volume.old volume.new
        (is_io result) }
{
    let (part, _) = memory.part_mut(start, len).split_at_mut(len);
    match volume.read(serial, at, part) {
        Ok(_) => Ok(()),
        Err(errno) => Err(errno),
    }
}

/// Reads bytes of a file into a buffer, as far as the next stretch of it reaches, and says where that ends. A stretch
/// that is in later buffers is passed over.
fn fill_stretch<D: Device>(
    volume: &mut Volume<D>,
    serial: Serial,
    from: u64,
    memory: &mut Memory,
    place: usize,
    end: usize,
    later: &[MemorySpan],
) -> Result<usize, vol_tree::Errno>
    requires file { IsFileOf D.honest volume.old serial }
    requires works { volume.old.failed ≡ false }
    requires some { place < end }
    requires inside { end ≤ length memory.old }
    ensures long { length memory.new ≡ length memory.old }
    ensures within { IfOk result (λ until. (place < until) × (until ≤ end)) }
    ensures filled { D.honest volume.old.device → end - place ≤ length
        (bytes_at volume.old.tree serial) - from → IfOk result
        (λ until. BufferFilled (bytes_at volume.old.tree serial) from place until
        (list_of later.now) memory.old memory.new) }
    ensures broke { D.honest volume.old.device → end - place ≤ length
        (bytes_at volume.old.tree serial) - from → IfErr result
        (λ e. (e ≡ vol_errno.Io) × BufferBegun (bytes_at volume.old.tree serial) from place end
        (list_of later.now) memory.old memory.new) }
    ensures asked { Asked D.honest D.disk D.size D.failures D.goes_on volume.old volume.new
        (is_io result) }
{
    match stretch_from(place, end, later) {
        Stretch::Covered(until) => Ok(until),
        Stretch::Free(until) => {
            match read_part(volume, serial, from, memory, place, until - place) {
                Ok(()) => Ok(until),
                Err(errno) => Err(errno),
            }
        }
    }
}

/// Fills a buffer with the bytes of a file from a place on, but for what of it is in later buffers.
fn fill_buffer<D: Device>(
    volume: &mut Volume<D>,
    serial: Serial,
    from: u64,
    memory: &mut Memory,
    buffer: MemorySpan,
    later: &[MemorySpan],
) -> Result<(), vol_tree::Errno>
    requires file { IsFileOf D.honest volume.old serial }
    requires works { volume.old.failed ≡ false }
    requires small { from + buffer.len < 2 ^ 64 }
    requires inside { buffer.pointer + buffer.len ≤ length memory.old }
    ensures long { length memory.new ≡ length memory.old }
    ensures filled { D.honest volume.old.device → buffer.len ≤ length
        (bytes_at volume.old.tree serial) - from → OnOk result
        (BufferFilled (bytes_at volume.old.tree serial) from buffer.pointer
        (buffer.pointer + buffer.len) (list_of later.now) memory.old memory.new) }
    ensures broke { D.honest volume.old.device → buffer.len ≤ length
        (bytes_at volume.old.tree serial) - from → IfErr result
        (λ e. (e ≡ vol_errno.Io) × BufferBegun (bytes_at volume.old.tree serial) from buffer.pointer
        (buffer.pointer + buffer.len) (list_of later.now) memory.old memory.new) }
    ensures asked { Asked D.honest D.disk D.size D.failures D.goes_on volume.old volume.new
        (is_io result) }
{
    let start = buffer.pointer as usize;
    let end = start + buffer.len as usize;
    let mut place = start;
    while place < end {
        let at = from + (place - start) as u64;
        match fill_stretch(volume, serial, at, memory, place, end, later) {
            Ok(until) => place = until,
            Err(errno) => return Err(errno),
        }
    }
    Ok(())
}

/// Fills the buffers with the bytes of a file from a place on, one after another. Where they overlap, later ones win.
fn fill_buffers<D: Device>(
    volume: &mut Volume<D>,
    serial: Serial,
    from: u64,
    memory: &mut Memory,
    buffers: &[MemorySpan],
) -> Result<(), vol_tree::Errno>
    requires file { IsFileOf D.honest volume.old serial }
    requires works { volume.old.failed ≡ false }
    requires small { from + total (list_of buffers.now) < 2 ^ 64 }
    requires inside { list_all (is_inside memory.old) (list_of buffers.now) ≡ true }
    ensures long { length memory.new ≡ length memory.old }
    ensures filled { D.honest volume.old.device → total (list_of buffers.now) ≤ length
        (bytes_at volume.old.tree serial) - from → OnOk result
        (memory.new ≡ put memory.old (scattered (drop from (bytes_at volume.old.tree serial))
        (list_of buffers.now))) }
    ensures broke { D.honest volume.old.device → total (list_of buffers.now) ≤ length
        (bytes_at volume.old.tree serial) - from → IfErr result
        (λ e. (e ≡ vol_errno.Io) × IsMixed memory.old
        (put memory.old (scattered (drop from (bytes_at volume.old.tree serial))
        (list_of buffers.now))) memory.new) }
    ensures asked { Asked D.honest D.disk D.size D.failures D.goes_on volume.old volume.new
        (is_io result) }
{
    let mut at = from;
    for index in 0..buffers.len() {
        let buffer = buffers[index];
        let later = &buffers[index + 1..];
        match fill_buffer(volume, serial, at, memory, buffer, later) {
            Ok(()) => at += u64::from(buffer.len),
            Err(errno) => return Err(errno),
        }
    }
    Ok(())
}

/// How many bytes of a file of this size there are from a place on, at most this many.
fn count_from(size: u32, from: u64, most: u32) -> u32
    ensures count { result ≡ min most (size - from) }
    ensures near { from + result < 2 ^ 64 }
{
    let left = u64::from(size).saturating_sub(from);
    u64::from(most).min(left) as u32
}

/// Reads the bytes of a file from a place on into the buffers, as many as there are and fit, and says how many. The
/// buffers are cut to them. Where buffers overlap, later ones win; where the volume fails, some places may have their
/// bytes already.
pub fn read_at<D: Device>(
    volume: &mut Volume<D>,
    serial: Serial,
    from: u64,
    memory: &mut Memory,
    buffers: &mut [MemorySpan],
) -> Result<u32, vol_tree::Errno>
    requires file { IsFileOf D.honest volume.old serial }
    requires few { length buffers.old ≤ MOST_BUFFERS }
    requires small { total (list_of buffers.old) < 2 ^ 32 }
    requires inside { list_all (is_inside memory.old) (list_of buffers.old) ≡ true }
    ensures long { length memory.new ≡ length memory.old }
    ensures near { IfOk result (λ n. from + n < 2 ^ 64) }
    ensures idle { volume.old.failed ≡ true → memory.new ≡ memory.old }
    ensures read { D.honest volume.old.device → IfOk result
        (λ n. (n ≡ length (wanted volume.old.tree serial from (list_of buffers.old)))
        × (memory.new ≡ received memory.old (wanted volume.old.tree serial from
        (list_of buffers.old)) (list_of buffers.old))) }
    ensures broke { D.honest volume.old.device → IfErr result
        (λ e. (e ≡ vol_errno.Io) × IsMixed memory.old
        (received memory.old (wanted volume.old.tree serial from (list_of buffers.old))
        (list_of buffers.old)) memory.new) }
    ensures asked { Asked D.honest D.disk D.size D.failures D.goes_on volume.old volume.new
        (is_io result) }
{
    match size_of(volume, serial) {
        Ok(size) => {
            let len = count_from(size, from, total_len(buffers) as u32);
            cut_to(buffers, len);
            match fill_buffers(volume, serial, from, memory, buffers) {
                Ok(()) => Ok(len),
                Err(errno) => Err(errno),
            }
        }
        Err(errno) => Err(errno),
    }
}

/// An open file that can be read at a place of its own.
pub fn file_to_read<'t>(descriptors: &Descriptors<'t>, fd: Fd) -> Result<Opened<'t>, Errno>
    ensures { (w : World) → w.table ≡ table_of descriptors.now → MatchResult result
        (λ o. entry w fd only_files (2 ^ 1 + 2 ^ 2) ≡ Ok o)
        (λ e. entry w fd only_files (2 ^ 1 + 2 ^ 2) ≡ Err e.0) }
{
    let rights = Rights::FD_READ.union(Rights::FD_SEEK);
    entry_at(descriptors, fd, DescriptorKinds::Files, rights)
}

/// Reads the bytes of an open file from a place on into the buffers of a call, which are cut to what was read, and then writes
/// how many.
pub fn read_placed<D: Device>(
    volume: &mut Volume<D>,
    memory: &mut Memory,
    opened: &Opened<'_>,
    from: u64,
    request: &Request,
    buffers: &mut [MemorySpan],
) -> Result<(), Errno>
    requires file { IsFileOf D.honest volume.old opened.now.serial }
    requires few { length buffers.old ≤ MOST_BUFFERS }
    requires usable { AreUsable memory.old (list_of buffers.old) request.now.result_at }
    ensures step { VolumeStep D.honest D.disk D.size D.failures D.goes_on volume.old volume.new }
    ensures io { errno_of result ≡ 29 → volume.new.failed ≡ true }
    ensures answered { D.honest volume.old.device → (w : World) → w ≡ with_volume volume.old w
        → Answered (λ v. read_into v opened.now from (list_of buffers.old) request.now.result_at) w
        memory.old (with_volume volume.new w) memory.new (errno_of result) }
{
    match read_at(volume, Serial::new(opened.serial), from, memory, buffers) {
        Ok(len) => {
            write_bytes(memory, request.result_at, &le32(len));
            Ok(())
        }
        Err(errno) => Err(refused(errno)),
    }
}

/// Reads the bytes of an open file where it stands into the buffers of a call, which are cut to what was read. The file moves
/// after them, and then it is written how many.
pub fn read_file<'t, D: Device>(
    volume: &mut Volume<D>,
    descriptors: &mut Descriptors<'t>,
    memory: &mut Memory,
    opened: &Opened<'t>,
    request: &Request,
    buffers: &mut [MemorySpan],
) -> Result<(), Errno>
    requires file { IsFileOf D.honest volume.old opened.now.serial }
    requires open { table_of descriptors.old request.now.fd ≡ Some (Descriptor.Entry opened.now) }
    requires few { length buffers.old ≤ MOST_BUFFERS }
    requires usable { AreUsable memory.old (list_of buffers.old) request.now.result_at }
    ensures step { VolumeStep D.honest D.disk D.size D.failures D.goes_on volume.old volume.new }
    ensures io { errno_of result ≡ 29 → volume.new.failed ≡ true }
    ensures entries { NoMoreEntries (table_of descriptors.old) (table_of descriptors.new) }
    ensures answered { D.honest volume.old.device → (w : World) → w.table ≡ table_of descriptors.old
        → w ≡ with_volume volume.old w → Answered
        (λ v. read_file_to v request.now.fd opened.now (list_of buffers.old) request.now.result_at)
        w memory.old (with_table (table_of descriptors.new) (with_volume volume.new w)) memory.new
        (errno_of result) }
{
    let serial = Serial::new(opened.serial);
    match read_at(volume, serial, opened.position, memory, buffers) {
        Ok(len) => {
            let past = opened.position + u64::from(len);
            move_to(descriptors, request.fd, opened, past);
            write_bytes(memory, request.result_at, &le32(len));
            Ok(())
        }
        Err(errno) => Err(refused(errno)),
    }
}

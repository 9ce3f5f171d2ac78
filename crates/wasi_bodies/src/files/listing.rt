//! Lists of directories.

ghost use Rattle.std.specs.Prelude.{◌≡◌, ◌≤◌, ◌+◌, ◌-◌, ◌^◌, ◌++◌, min, length, take, drop, true, false, Ok, Err, IfOk, IfErr, IfSome, OnOk, MatchResult};
ghost use Rattle.vol_tree.specs.declared.errno.Errno.TheVariants as vol_errno;
ghost use Rattle.vol_tree.specs.Tree.{Entry};
ghost use Rattle.vol_tree.specs.Stat.{IsStat};
ghost use Rattle.vol_tree.specs.Clauses.{TellsBytes, is_io};
ghost use Rattle.wasm_store.specs.Bytes.{written};
ghost use Rattle.wasi_fd.specs.Table.{table_of};
ghost use Rattle.wasi_bodies.specs.World.{World};
ghost use Rattle.wasi_bodies.specs.files.Rows.{dirent, dirents, fd_readdir as list_row};
ghost use Rattle.wasi_bodies.specs.Calls.{Answered};
ghost use Rattle.wasi_bodies.specs.host.Worlds.{VolumeStep};
ghost use Rattle.wasi_bodies.specs.internal.Entries.{errno_of, with_volume, type_of_entry};
ghost use Rattle.path_walk.specs.Walk.{Asked};
ghost use Rattle.wasi_bodies.specs.internal.files.Reading.{IsBegun};
ghost use Rattle.wasi_bodies.specs.internal.files.Listing.{listable, header, told_bytes, TellsNext};

use crate::arguments::{descriptor, long, word};
use crate::checks::{DescriptorKinds, check_range, entry_at, write_bytes};
use crate::descriptors::stat::type_of_entry;
use crate::errno::refused;
use crate::numbers::{le32, le64};
use vol_sector::Device;
use vol_tree::{Serial, Stat, Volume};
use wasi_fd::{Descriptors, Fd, Opened, Rights};
use wasm_store::{Errno, Memory};

/// What a `fd_readdir` asks for.
#[derive(Clone, Copy)]
pub struct ListCall {
    pub fd: Fd,
    pub buffer: u32,
    pub len: u32,
    pub cookie: u64,
    pub used_at: u32,
}

impl ListCall {
    ghost use Rattle.wasi_bodies.specs.internal.files.Listing.{list_call};

    /// What the arguments ask for.
    pub fn read(arguments: &[u64]) -> ListCall
        ensures { result ≡ list_call arguments.now }
    {
        ListCall {
            fd: descriptor(arguments, 0),
            buffer: word(arguments, 1),
            len: word(arguments, 2),
            cookie: long(arguments, 3),
            used_at: word(arguments, 4),
        }
    }
}

/// An entry that is told: its serial, and bytes that begin with its `dirent`.
#[derive(Clone, Copy)]
struct ToldEntry {
    serial: Serial,
    /// How many bytes the `dirent` has, from 24 to 279.
    len: usize,
    bytes: [u8; 279],
}

/// A `dirent` before its name: the next cookie at 0, the serial at 8, the name's length at 16 and the type at 20.
fn header(serial: Serial, name_length: u8, file_type: u8) -> [u8; 24]
    ensures { result ≡ header serial name_length file_type }
{
    let mut bytes = [0; 24];
    bytes[..8].copy_from_slice(&le64(u64::from(serial.number())));
    bytes[8..16].copy_from_slice(&le64(u64::from(serial.number())));
    bytes[16..20].copy_from_slice(&le32(u32::from(name_length)));
    bytes[20] = file_type;
    bytes
}

/// Fills the bytes with a beginning and what follows it.
fn join(bytes: &mut [u8], beginning: &[u8], rest: &[u8])
    requires { length bytes.old ≡ length beginning.now + length rest.now }
    ensures { bytes.new ≡ beginning.now ++ rest.now }
{
    let len = beginning.len();
    bytes[..len].copy_from_slice(beginning);
    bytes[len..].copy_from_slice(rest);
}

/// The `dirent` of an entry.
fn describe(serial: Serial, stat: &Stat) -> ToldEntry
    ensures serial { result.serial ≡ serial }
    ensures least { 24 ≤ result.len }
    ensures most { result.len ≤ 279 }
    ensures told { (e : Entry) → IsStat serial e stat.now → told_bytes result ≡ dirent serial e }
{
    let beginning = header(serial, stat.name_length, type_of_entry(stat.kind));
    let mut bytes = [0; 279];
    join(&mut bytes, &beginning, &stat.name);
    let len = 24 + stat.name_length as usize;
    ToldEntry { serial, len, bytes }
}

/// The entry that a list goes on with after a serial.
fn next_told<D: Device>(
    volume: &mut Volume<D>,
    directory: Serial,
    after: u32,
) -> Result<Option<ToldEntry>, vol_tree::Errno>
    ensures asked { Asked D.honest D.disk D.size D.failures D.goes_on volume.old volume.new
        (is_io result) }
    ensures told { D.honest volume.old.device → MatchResult result
        (λ next. TellsNext volume.old.tree directory after next) (λ e. e ≡ vol_errno.Io) }
    ensures least { IfOk result (λ next. IfSome next (λ t. 24 ≤ t.len)) }
    ensures most { IfOk result (λ next. IfSome next (λ t. t.len ≤ 279)) }
{
    match volume.list_next(directory, after) {
        Ok(Some(serial)) => match volume.stat(serial) {
            Ok(stat) => Ok(Some(describe(serial, &stat))),
            Err(errno) => Err(errno),
        },
        Ok(None) => Ok(None),
        Err(errno) => Err(errno),
    }
}

/// Copies as many of the bytes as there is room for into the part, from a place on, and says where they end.
fn put_some(part: &mut [u8], place: usize, bytes: &[u8]) -> usize
    requires { place ≤ length part.old }
    ensures end { result ≡ min (length part.old) (place + length bytes.now) }
    ensures filled { take result part.new ≡ take place part.old ++ take (result - place) bytes.now }
    ensures rest { drop result part.new ≡ drop result part.old }
{
    let count = bytes.len().min(part.len() - place);
    let end = place + count;
    part[place..end].copy_from_slice(&bytes[..count]);
    end
}

/// Puts the list after a serial into the part, as far as there is room, and says how many bytes that is.
fn list<D: Device>(
    volume: &mut Volume<D>,
    directory: Serial,
    cookie: u32,
    part: &mut [u8],
) -> Result<usize, vol_tree::Errno>
    requires { volume.old.failed ≡ false }
    ensures asked { Asked D.honest D.disk D.size D.failures D.goes_on volume.old volume.new
        (is_io result) }
    ensures answer { D.honest volume.old.device → TellsBytes
        (take (length part.old) (dirents volume.old.tree directory cookie)) part.old part.new
        volume.old.tree volume.new.tree result }
    ensures room { IfOk result (λ n. n ≤ length part.old) }
{
    let mut after = cookie;
    let mut filled: usize = 0;
    while filled < part.len() {
        match next_told(volume, directory, after) {
            Ok(Some(told)) => {
                filled = put_some(part, filled, &told.bytes[..told.len]);
                after = told.serial.number();
            }
            Ok(None) => return Ok(filled),
            Err(errno) => return Err(errno),
        }
    }
    Ok(filled)
}

/// Puts the list after a serial into memory, from a place on, as far as there is room, and says how many bytes that is.
fn list_part<D: Device>(
    volume: &mut Volume<D>,
    directory: Serial,
    cookie: u32,
    memory: &mut Memory,
    start: usize,
    len: usize,
) -> Result<usize, vol_tree::Errno>
    requires works { volume.old.failed ≡ false }
    requires inside { start + len ≤ length memory.old }
    ensures asked { Asked D.honest D.disk D.size D.failures D.goes_on volume.old volume.new
        (is_io result) }
    ensures long { length memory.new ≡ length memory.old }
    ensures room { IfOk result (λ n. n ≤ len) }
    ensures count { D.honest volume.old.device
        → IfOk result (λ n. n ≡ min len (length (dirents volume.old.tree directory cookie))) }
    ensures listed { D.honest volume.old.device → IfOk result
        (λ n. memory.new ≡ written memory.old start
        (take len (dirents volume.old.tree directory cookie))) }
    ensures broke { D.honest volume.old.device → IfErr result
        (λ e. (e ≡ vol_errno.Io) × IsBegun memory.old start
        (take len (dirents volume.old.tree directory cookie)) memory.new) }
{
    let (part, _) = memory.part_mut(start, len).split_at_mut(len);
    match list(volume, directory, cookie, part) {
        Ok(count) => Ok(count),
        Err(errno) => Err(errno),
    }
}

/// The cookie, or the last number that a serial can have where it is greater: no entry comes after either.
fn last_told(cookie: u64) -> u32
    ensures { result ≡ min cookie (2 ^ 32 - 1) }
{
    cookie.min(u64::from(u32::MAX)) as u32
}

/// Puts the list after a cookie into memory, as far as there is room, and says how many bytes that is.
fn list_from<D: Device>(
    volume: &mut Volume<D>,
    directory: Serial,
    cookie: u64,
    memory: &mut Memory,
    start: u32,
    len: u32,
) -> Result<u32, vol_tree::Errno>
    requires { start + len ≤ length memory.old }
    ensures asked { Asked D.honest D.disk D.size D.failures D.goes_on volume.old volume.new
        (is_io result) }
    ensures long { length memory.new ≡ length memory.old }
    ensures idle { volume.old.failed ≡ true → memory.new ≡ memory.old }
    ensures count { D.honest volume.old.device
        → IfOk result (λ n. n ≡ min len (length (dirents volume.old.tree directory cookie))) }
    ensures listed { D.honest volume.old.device → IfOk result
        (λ n. memory.new ≡ written memory.old start
        (take len (dirents volume.old.tree directory cookie))) }
    ensures broke { D.honest volume.old.device → IfErr result
        (λ e. (e ≡ vol_errno.Io) × IsBegun memory.old start
        (take len (dirents volume.old.tree directory cookie)) memory.new) }
{
    volume.is_a_tree();
    if volume.failed() {
        return Err(vol_tree::Errno::Io);
    }
    let last = last_told(cookie);
    match list_part(
        volume,
        directory,
        last,
        memory,
        start as usize,
        len as usize,
    ) {
        Ok(count) => Ok(count as u32),
        Err(errno) => Err(errno),
    }
}

/// The open directory that is to be listed.
#[tactic(auto, using(crate::proofs::checks::Chains::goes_on, crate::proofs::checks::Chains::stops))]
fn directory_to_list<'t>(
    descriptors: &Descriptors<'t>,
    memory: &Memory,
    asked: &ListCall,
) -> Result<Opened<'t>, Errno>
    ensures buffer { OnOk result (asked.now.buffer + asked.now.len ≤ length memory.now) }
    ensures used { OnOk result (asked.now.used_at + 4 ≤ length memory.now) }
    ensures checked { (w : World) → w.table ≡ table_of descriptors.now → MatchResult result
        (λ o. listable w memory.now asked.now ≡ Ok o)
        (λ e. listable w memory.now asked.now ≡ Err e.0) }
{
    let opened = entry_at(
        descriptors,
        asked.fd,
        DescriptorKinds::Directories,
        Rights::FD_READDIR,
    )?;
    check_range(memory, asked.buffer, asked.len)?;
    match check_range(memory, asked.used_at, 4) {
        Ok(()) => Ok(opened),
        Err(errno) => Err(errno),
    }
}

/// `fd_readdir(fd, buffer, length, cookie, used)`.
pub fn fd_readdir<D: Device>(
    volume: &mut Volume<D>,
    descriptors: &Descriptors<'_>,
    memory: &mut Memory,
    asked: &ListCall,
) -> Result<(), Errno>
    ensures step { VolumeStep D.honest D.disk D.size D.failures D.goes_on volume.old volume.new }
    ensures io { errno_of result ≡ 29 → volume.new.failed ≡ true }
    ensures answered { D.honest volume.old.device → (w : World) → w.table ≡ table_of descriptors.now
        → w ≡ with_volume volume.old w → Answered
        (λ v. list_row v memory.old asked.now.fd asked.now.buffer asked.now.len asked.now.cookie
        asked.now.used_at) w memory.old (with_volume volume.new w) memory.new (errno_of result) }
{
    let opened = match directory_to_list(descriptors, memory, asked) {
        Ok(opened) => opened,
        Err(errno) => return Err(errno),
    };
    let (start, len) = (asked.buffer, asked.len);
    let directory = Serial::new(opened.serial);
    match list_from(volume, directory, asked.cookie, memory, start, len) {
        Ok(count) => {
            write_bytes(memory, asked.used_at, &le32(count));
            Ok(())
        }
        Err(errno) => Err(refused(errno)),
    }
}

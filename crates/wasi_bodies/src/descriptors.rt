//! Descriptors: closing them, and what they are.

pub mod positions;
pub mod stat;

ghost use Rattle.std.specs.Prelude.{◌≡◌, ℕ, ◌++◌, Ok, Err, MatchResult, replicate};
ghost use Rattle.std.specs.Option.{ok_or};
ghost use Rattle.byteorder.specs.Endian.{little_bytes};
ghost use Rattle.wasi_fd.specs.Table.{table_of};
ghost use Rattle.wasi_bodies.specs.World.{World};
ghost use Rattle.wasi_bodies.specs.descriptors.Rows.{fd_close as close, fd_fdstat_get as stat, fdstat, type_of, flags_of, fd_prestat_get as prestat, fd_prestat_dir_name as dir_name, guest_name};
ghost use Rattle.wasi_bodies.specs.Calls.{Answers};
ghost use Rattle.wasi_bodies.specs.internal.Entries.{NoMoreEntries, errno_of};

use crate::checks::{check_range, check_that, described, write_bytes};
use crate::descriptors::stat::type_of_stream;
use crate::errno::NAMETOOLONG;
use crate::numbers::{le64, low32};
use crate::streams::Terminals;
use bitflags::Flags;
use wasi_fd::{Descriptor, Descriptors, EntryKind, Fd};
use wasm_store::{Errno, Memory};

/// `fd_close(fd)`: any descriptor. Nothing is committed.
#[tactic(auto, using(crate::proofs::checks::Chains::goes_on, crate::proofs::checks::Chains::stops, crate::proofs::bodies::Resting::no_more, crate::proofs::bodies::Resting::no_more_closed))]
pub fn fd_close(descriptors: &mut Descriptors<'_>, fd: Fd) -> Result<(), Errno>
    ensures entries { NoMoreEntries (table_of descriptors.old) (table_of descriptors.new) }
    ensures answers { (w : World) (m : _) → w.table ≡ table_of descriptors.old
        → Answers (close w fd) w m (record w { table = table_of descriptors.new }) m
        (errno_of result) }
{
    described(descriptors, fd)?;
    match descriptors.close(fd) {
        Ok(()) => Ok(()),
        Err(_) => Err(Errno::BADF),
    }
}

/// `filetype`: 2 is a character device, 3 a directory, 4 a file.
fn type_of(descriptor: &Descriptor<'_>, interactive: Option<Terminals>) -> u8
    ensures { result ≡ type_of interactive descriptor.now }
{
    match descriptor {
        Descriptor::Stream(stream) => type_of_stream(*stream, interactive),
        Descriptor::Entry(opened) => match opened.kind {
            EntryKind::Directory => 3,
            EntryKind::File => 4,
        },
    }
}

/// `fdflags`: 1 is append, and no other is kept.
fn flags_of(descriptor: &Descriptor<'_>) -> u8
    ensures { result ≡ flags_of descriptor.now }
{
    match descriptor {
        Descriptor::Stream(_) => 0,
        Descriptor::Entry(opened) => u8::from(opened.append),
    }
}

/// `fdstat`: the type at 0, the flags at 2, the rights at 8 and those that it hands on at 16.
fn fdstat(descriptor: &Descriptor<'_>, interactive: Option<Terminals>) -> [u8; 24]
    ensures { result ≡ fdstat interactive descriptor.now }
{
    let mut bytes = [0; 24];
    bytes[0] = type_of(descriptor, interactive);
    bytes[2] = flags_of(descriptor);
    bytes[8..16].copy_from_slice(&le64(descriptor.base().bits()));
    bytes[16..24].copy_from_slice(&le64(descriptor.inheriting().bits()));
    bytes
}

/// `fd_fdstat_get(fd, result)`.
#[tactic(auto, using(crate::proofs::checks::Chains::goes_on, crate::proofs::checks::Chains::stops))]
pub fn fd_fdstat_get(
    descriptors: &Descriptors<'_>,
    interactive: Option<Terminals>,
    memory: &mut Memory,
    fd: Fd,
    result_at: u32,
) -> Result<(), Errno>
    ensures { (w : World) → w.table ≡ table_of descriptors.now → w.interactive ≡ interactive
        → Answers (stat w memory.old fd result_at) w memory.old w memory.new (errno_of result) }
{
    let descriptor = described(descriptors, fd)?;
    check_range(memory, result_at, 24)?;
    write_bytes(memory, result_at, &fdstat(&descriptor, interactive));
    Ok(())
}

/// The name that the guest knows a preopened directory by.
fn guest_name<'t>(descriptor: &Descriptor<'t>) -> Result<&'t [u8], Errno>
    ensures { MatchResult result (λ n. ok_or {E = ℕ} (guest_name descriptor.now) 8 ≡ Ok n.now)
        (λ e. ok_or {E = ℕ} (guest_name descriptor.now) 8 ≡ Err e.0) }
{
    match descriptor {
        Descriptor::Stream(_) => Err(Errno::BADF),
        Descriptor::Entry(opened) => match opened.guest_name {
            Some(name) => Ok(name),
            None => Err(Errno::BADF),
        },
    }
}

/// `prestat`: four zeros, and the length of the name.
fn prestat(len: usize) -> [u8; 8]
    ensures { result ≡ replicate 4 0 ++ little_bytes 4 len }
{
    let mut bytes = [0; 8];
    bytes[4..8].copy_from_slice(&low32(len as u64));
    bytes
}

/// `fd_prestat_get(fd, result)`.
#[tactic(auto, using(crate::proofs::checks::Chains::goes_on, crate::proofs::checks::Chains::stops))]
pub fn fd_prestat_get(
    descriptors: &Descriptors<'_>,
    memory: &mut Memory,
    fd: Fd,
    result_at: u32,
) -> Result<(), Errno>
    ensures { (w : World) → w.table ≡ table_of descriptors.now
        → Answers (prestat w memory.old fd result_at) w memory.old w memory.new (errno_of result) }
{
    let descriptor = described(descriptors, fd)?;
    let name = guest_name(&descriptor)?;
    check_range(memory, result_at, 8)?;
    write_bytes(memory, result_at, &prestat(name.len()));
    Ok(())
}

/// `fd_prestat_dir_name(fd, path, length)`: the name, where it fits in the length.
#[tactic(auto, using(crate::proofs::checks::Chains::goes_on, crate::proofs::checks::Chains::stops))]
pub fn fd_prestat_dir_name(
    descriptors: &Descriptors<'_>,
    memory: &mut Memory,
    fd: Fd,
    path: u32,
    len: u32,
) -> Result<(), Errno>
    ensures { (w : World) → w.table ≡ table_of descriptors.now
        → Answers (dir_name w memory.old fd path len) w memory.old w memory.new (errno_of result) }
{
    let descriptor = described(descriptors, fd)?;
    let name = guest_name(&descriptor)?;
    check_range(memory, path, len)?;
    check_that(name.len() <= len as usize, NAMETOOLONG)?;
    write_bytes(memory, path, name);
    Ok(())
}

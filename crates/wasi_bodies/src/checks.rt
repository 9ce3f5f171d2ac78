//! The checks that a call makes, one after another: the first that fails answers.

pub mod buffers;

ghost use Rattle.std.specs.Prelude.{◌≡◌, ◌+◌, ◌≤◌, length, Ok, Err, MatchResult, OnOk, true};
ghost use Rattle.wasm_store.specs.Bytes.{written};
ghost use Rattle.wasi_fd.specs.Table.{table_of};
ghost use Rattle.wasi_fd.specs.Rights.{bits_of};
ghost use Rattle.wasi_bodies.specs.World.{World};
ghost use Rattle.wasi_bodies.specs.Checks.{guard, range, get, of_kind, has, descriptor, opened_entry, entry_at as entry};
ghost use Rattle.wasi_bodies.specs.internal.Entries.{refusals_of};

use crate::errno::{ISDIR, NOTCAPABLE, NOTDIR, SPIPE};
use bitflags::Flags;
use wasi_fd::{Descriptor, Descriptors, EntryKind, Fd, Opened, Rights};
use wasm_store::{Errno, Memory};

/// The kinds of descriptors that a call takes.
#[derive(Clone, Copy)]
pub enum DescriptorKinds {
    Any,
    Directories,
    /// Files and streams.
    NoDirectories,
    /// Files, for a call with positions.
    Files,
    /// Files, for a call on sizes.
    Sized,
    /// Files and directories.
    NoStreams,
}

/// A check that answers this errno where it fails.
#[tactic(auto, using(crate::proofs::checks::Chains::guard_passes, crate::proofs::checks::Chains::guard_fails))]
pub fn check_that(holds: bool, errno: Errno) -> Result<(), Errno>
    ensures meaning { MatchResult result (λ u. guard holds errno.0 ≡ Ok u)
        (λ e. guard holds errno.0 ≡ Err e.0) }
    ensures passed { OnOk result (holds ≡ true) }
{
    if holds { Ok(()) } else { Err(errno) }
}

/// Whether the range lies in memory, also one of no bytes.
#[tactic(auto, using(crate::proofs::checks::Chains::guard_passes, crate::proofs::checks::Chains::guard_fails))]
pub fn check_range(memory: &Memory, pointer: u32, len: u32) -> Result<(), Errno>
    ensures range { MatchResult result (λ u. range memory.now pointer len ≡ Ok u)
        (λ e. range memory.now pointer len ≡ Err e.0) }
    ensures inside { OnOk result (pointer + len ≤ length memory.now) }
{
    if pointer as usize + len as usize <= memory.len() {
        Ok(())
    } else {
        Err(Errno::FAULT)
    }
}

/// Writes the bytes where they lie in memory.
pub fn write_bytes(memory: &mut Memory, at: u32, bytes: &[u8])
    requires { at + length bytes.now ≤ length memory.old }
    ensures bytes { memory.new ≡ written memory.old at bytes.now }
    ensures length { length memory.new ≡ length memory.old }
{
    memory.write(at, bytes);
}

/// What an open number stands for.
pub fn described<'t>(descriptors: &Descriptors<'t>, fd: Fd) -> Result<Descriptor<'t>, Errno>
    ensures { (w : World) → w.table ≡ table_of descriptors.now → MatchResult result
        (λ d. get w fd ≡ Ok d) (λ e. get w fd ≡ Err e.0) }
{
    match descriptors.get(fd) {
        Ok(descriptor) => Ok(descriptor),
        Err(_) => Err(Errno::BADF),
    }
}

impl DescriptorKinds {
    ghost use Rattle.wasi_bodies.specs.internal.Entries.{refusals_of};

    /// Whether a call that takes these kinds takes the descriptor.
    pub fn check(self, descriptor: &Descriptor<'_>) -> Result<(), Errno>
        ensures { MatchResult result (λ u. of_kind (refusals_of self) descriptor.now ≡ Ok u)
            (λ e. of_kind (refusals_of self) descriptor.now ≡ Err e.0) }
    {
        match descriptor {
            Descriptor::Stream(_) => match self {
                DescriptorKinds::Any | DescriptorKinds::NoDirectories => Ok(()),
                DescriptorKinds::Directories => Err(NOTDIR),
                DescriptorKinds::Files => Err(SPIPE),
                DescriptorKinds::Sized | DescriptorKinds::NoStreams => Err(Errno::INVAL),
            },
            Descriptor::Entry(opened) => match opened.kind {
                EntryKind::Directory => match self {
                    DescriptorKinds::Any
                    | DescriptorKinds::Directories
                    | DescriptorKinds::NoStreams => Ok(()),
                    DescriptorKinds::NoDirectories
                    | DescriptorKinds::Files
                    | DescriptorKinds::Sized => Err(ISDIR),
                },
                EntryKind::File => match self {
                    DescriptorKinds::Directories => Err(NOTDIR),
                    _ => Ok(()),
                },
            },
        }
    }
}

/// Whether the descriptor has these rights.
#[tactic(auto, using(crate::proofs::checks::Chains::guard_passes, crate::proofs::checks::Chains::guard_fails))]
pub fn check_rights(descriptor: &Descriptor<'_>, rights: Rights) -> Result<(), Errno>
    ensures { MatchResult result (λ u. guard (has descriptor.now (bits_of rights)) 76 ≡ Ok u)
        (λ e. guard (has descriptor.now (bits_of rights)) 76 ≡ Err e.0) }
{
    if descriptor.base().contains(rights) {
        Ok(())
    } else {
        Err(NOTCAPABLE)
    }
}

/// What an open number of these kinds stands for, where it has the rights.
#[tactic(auto, using(crate::proofs::checks::Chains::goes_on, crate::proofs::checks::Chains::stops))]
pub fn allowed<'t>(
    descriptors: &Descriptors<'t>,
    fd: Fd,
    takes: DescriptorKinds,
    rights: Rights,
) -> Result<Descriptor<'t>, Errno>
    ensures { (w : World) → w.table ≡ table_of descriptors.now → MatchResult result
        (λ d. descriptor w fd (refusals_of takes) (bits_of rights) ≡ Ok d)
        (λ e. descriptor w fd (refusals_of takes) (bits_of rights) ≡ Err e.0) }
{
    let descriptor = described(descriptors, fd)?;
    takes.check(&descriptor)?;
    match check_rights(&descriptor, rights) {
        Ok(()) => Ok(descriptor),
        Err(e) => Err(e),
    }
}

/// What the descriptor of an entry opened.
pub fn opened_of<'t>(descriptor: Descriptor<'t>) -> Result<Opened<'t>, Errno>
    ensures { MatchResult result (λ o. opened_entry descriptor.entry ≡ Ok o)
        (λ e. opened_entry descriptor.entry ≡ Err e.0) }
{
    match descriptor {
        Descriptor::Stream(_) => Err(Errno::BADF),
        Descriptor::Entry(opened) => Ok(opened),
    }
}

/// An open entry of these kinds, where its descriptor has the rights.
#[tactic(auto, using(crate::proofs::checks::Chains::goes_on, crate::proofs::checks::Chains::stops))]
pub fn entry_at<'t>(
    descriptors: &Descriptors<'t>,
    fd: Fd,
    takes: DescriptorKinds,
    rights: Rights,
) -> Result<Opened<'t>, Errno>
    ensures { (w : World) → w.table ≡ table_of descriptors.now → MatchResult result
        (λ o. entry w fd (refusals_of takes) (bits_of rights) ≡ Ok o)
        (λ e. entry w fd (refusals_of takes) (bits_of rights) ≡ Err e.0) }
{
    let descriptor = allowed(descriptors, fd, takes, rights)?;
    opened_of(descriptor)
}

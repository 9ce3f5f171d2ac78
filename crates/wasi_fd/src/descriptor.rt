//! What a descriptor stands for.

ghost use Rattle.std.specs.Prelude.{◌≡◌, ◌↔◌, IsTrue};
ghost use Rattle.wasi_fd.specs.Table.{IsOf};

use crate::Rights;
use bitflags::Flags;
use vol_inode::Serial;

/// A stream that the host was given.
#[derive(Clone, Copy)]
pub enum Stream {
    Input,
    Output,
    Error,
}

/// What an open entry is.
#[derive(Clone, Copy)]
pub enum EntryKind {
    Directory,
    File,
}

/// An entry of the volume that is open.
#[derive(Clone, Copy)]
pub struct Opened<'g> {
    /// The number of the entry's serial: a value with a reference beside a `Serial` isn't copied.
    pub serial: u32,
    pub kind: EntryKind,
    /// Where a file is read or written next, in bytes, at most 2^63 - 1.
    pub position: u64,
    /// Each write goes to the end of the file.
    pub append: bool,
    /// What the descriptor itself allows.
    pub base: Rights,
    /// What it allows those that are opened through it.
    pub inheriting: Rights,
    /// The name that the guest knows a preopened directory by.
    pub guest_name: Option<&'g [u8]>,
}

/// What a number stands for.
#[derive(Clone, Copy)]
pub enum Descriptor<'g> {
    Stream(Stream),
    Entry(Opened<'g>),
}

impl<'g> Descriptor<'g> {
    ghost use Rattle.wasi_fd.specs.Table.{base_of, inheriting_of};
    ghost use Rattle.wasi_fd.specs.Rights.{bits_of};

    /// What the descriptor allows. A stream is read or written, and asked what it is.
    pub fn base(&self) -> Rights
        ensures { bits_of result ≡ base_of self.now }
    {
        match self {
            Descriptor::Stream(Stream::Input) => Rights::FD_READ.union(Rights::FD_FILESTAT_GET),
            Descriptor::Stream(_) => Rights::FD_WRITE.union(Rights::FD_FILESTAT_GET),
            Descriptor::Entry(opened) => opened.base,
        }
    }

    /// What the descriptor allows those that are opened through it: nothing for a stream.
    pub fn inheriting(&self) -> Rights
        ensures { bits_of result ≡ inheriting_of self.now }
    {
        match self {
            Descriptor::Stream(_) => Rights::empty(),
            Descriptor::Entry(opened) => opened.inheriting,
        }
    }
}

/// Whether the place has a descriptor of the entry with this serial.
pub fn is_of(place: &Option<Descriptor<'_>>, serial: Serial) -> bool
    ensures { IsTrue result ↔ IsOf serial place.now }
{
    match place {
        Some(Descriptor::Entry(opened)) => opened.serial == serial.number(),
        _ => false,
    }
}

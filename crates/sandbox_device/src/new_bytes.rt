//! What replaces a file.

ghost use Rattle.std.specs.Prelude.{OnOk};
ghost use Rattle.std.specs.Io.KnownBytes.{Appends};
ghost use Rattle.sandbox_device.specs.Contents.{bytes_of};

use crate::ram_device::RamDevice;
use std::io;
use std::io::Write;
use vol_sector::Device;

/// What a file is to have, all at once.
#[derive(Clone, Copy)]
pub enum Contents<'a> {
    /// The sectors of a device, one after the other.
    Sectors(&'a RamDevice),
    /// These bytes.
    Bytes(&'a [u8]),
}

impl Contents<'_> {
    /// How many bytes it has.
    pub(crate) fn len(self) -> u64 {
        match self {
            Contents::Sectors(device) => u64::from(device.sectors()) * 512,
            Contents::Bytes(bytes) => bytes.len() as u64,
        }
    }

    /// Writes all of its bytes.
    pub(crate) fn write_to<W: Write>(self, out: &mut W) -> io::Result<()>
        ensures { OnOk result (Appends (W.contents out.old) (W.contents out.new)
            (bytes_of self.entry)) }
    {
        match self {
            Contents::Sectors(device) => device.write_to(out),
            Contents::Bytes(bytes) => out.write_all(bytes),
        }
    }
}

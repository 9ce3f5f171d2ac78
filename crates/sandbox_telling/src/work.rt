//! What is done with the volume on a device.

use sandbox_args::Task;
use vol_inode::Version;

/// What is done with the volume on a device. A run of a guest is none of these.
#[derive(Clone, Copy)]
pub enum VolumeWork<'a> {
    /// The device gets an empty volume of so many sectors and slots, of this version; where it is to be new, only if no volume
    /// stands there.
    Format {
        sectors: u32,
        slots: u32,
        version: Version,
        new: bool,
    },
    /// A task is done.
    Task(Task<'a>),
    /// A tar stream is brought into a directory.
    Import {
        path: &'a str,
    },
    /// A directory is printed as a tar stream.
    Export {
        path: &'a str,
    },
}

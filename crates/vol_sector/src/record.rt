//! What a device in memory keeps of what was done to it.

use crate::Sector;

/// An operation that a device in memory has done.
#[derive(Clone, Copy)]
pub enum Operation {
    /// The sector with this number was written with these bytes.
    Write(u32, Sector),
    Sync,
}

//! A sector that waits for its commit.

use vol_sector::Sector;

/// A sector that is to be written, and its bytes.
#[derive(Clone, Copy)]
pub struct Staged {
    pub sector: u32,
    pub image: Sector,
}

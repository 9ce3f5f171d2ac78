//! Where the parts of a volume stand on the disk.

/// The sector of the superblock.
pub(crate) const SUPERBLOCK: u32 = 0;

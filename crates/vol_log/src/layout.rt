//! Where the log stands on the disk. Sectors 2 to 121 hold its images.

/// The sector that stands before the log.
pub const FRONT: u32 = 0;

/// The sector of the log's header.
pub const HEADER: u32 = 1;

/// The sector of the log's first image.
pub const FIRST_IMAGE: u32 = 2;

/// How many images the log has room for.
pub const IMAGES: usize = 120;

/// The first sector after the log.
pub const FIRST_AFTER_LOG: u32 = 122;

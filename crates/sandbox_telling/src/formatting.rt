//! The file of a volume that is to be formatted.

ghost use Rattle.std.specs.Prelude.{◌≡◌};
ghost use Rattle.sandbox_telling.specs.Formatting.{most_sectors, room_for, version_for};

use vol_inode::Version;

/// The version of a volume that is made, a large one, a huge one or neither.
pub fn version_for(large: bool, huge: bool) -> Version
    ensures { result ≡ version_for large huge }
{
    if huge {
        Version::Four
    } else if large {
        Version::Two
    } else {
        Version::One
    }
}

/// The most sectors that a volume of this version may have.
pub fn most_sectors(version: Version) -> u32
    ensures { result ≡ most_sectors version }
{
    match version {
        Version::One | Version::Two => 65_536,
        Version::Four => 16_777_216,
    }
}

/// The sectors that the file of such a volume is lengthened to: those that are asked for, or the most that the version allows.
pub fn room_for(version: Version, sectors: u32) -> u32
    ensures { result ≡ room_for version sectors }
{
    sectors.min(most_sectors(version))
}

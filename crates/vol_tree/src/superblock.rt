//! The first sector of a volume.

ghost use Rattle.std.specs.Prelude.{◌≡◌, ◌≢◌, ◌≤◌, ◌⊎◌, ◌↔◌, Ok, IfOk, IfErr, IsErrOf, IsTrue};
ghost use Rattle.std.specs.Prelude.{take, drop};
ghost use Rattle.byteorder.specs.Endian.{little_number};
ghost use Rattle.vol_sector.specs.Fault.{IsDamage};
ghost use Rattle.vol_tree.specs.Superblock.{superblock, HasRanges, IsNoVersion, magic};
ghost use Rattle.vol_tree.specs.Superblock.{version_number};
ghost use Rattle.vol_tree.specs.declared.superblock.Superblock.{Superblock};

use crate::layout::SUPERBLOCK;
use byteorder::{ByteOrder, LittleEndian};
use vol_inode::{Version, put_bytes, put_number};
use vol_log::FIRST_AFTER_LOG;
use vol_sector::{Damage, Rule, Sector, VolumeFault};

/// The bytes that a volume begins with.
const MAGIC: [u8; 8] = *b"WASMVOLU";

/// The numbers of a volume.
#[derive(Clone, Copy)]
pub(crate) struct Superblock {
    pub version: Version,
    /// How many sectors the volume has, 137 to 65,536, and in version 4 to 16,777,216.
    pub sectors: u32,
    /// How many slots for entries it has, 1 to 8,192, and in version 4 to 1,048,576.
    pub slots: u32,
}

/// Whether a volume may have these numbers.
pub(crate) fn has_ranges(numbers: &Superblock) -> bool
    ensures { IsTrue result ↔ HasRanges numbers.now }
{
    137 <= numbers.sectors
        && numbers.sectors <= 16_777_216
        && 1 <= numbers.slots
        && numbers.slots <= 1_048_576
        && FIRST_AFTER_LOG + numbers.slots < numbers.sectors
        && (numbers.version == Version::Four || is_of_older_size(numbers))
}

/// Whether a volume of version 1 or 2 may have so many sectors and slots.
fn is_of_older_size(numbers: &Superblock) -> bool
    ensures { IsTrue result ↔ (numbers.now.sectors ≤ 65536) × (numbers.now.slots ≤ 8192) }
{
    numbers.sectors <= 65_536 && numbers.slots <= 8_192
}

/// Reads the numbers of a volume from its first sector.
///
/// It is refused, in this order, as `NotAVolume` where it begins otherwise, as `Version` where the
/// version is none that is known, and as `Damaged`.
pub(crate) fn read_superblock(image: &Sector) -> Result<Superblock, VolumeFault>
    ensures right { IfOk result (λ v. HasRanges v × (image.now ≡ superblock v)) }
    ensures every { (v : Superblock) → HasRanges v → image.now ≡ superblock v → result ≡ Ok v }
    ensures not_a_volume { IsErrOf result VolumeFault.NotAVolume ↔ (take 8 image.now ≢ magic) }
    ensures version { IsErrOf result VolumeFault.Version ↔ ((take 8 image.now ≡ magic)
        × IsNoVersion (little_number 4 (drop 8 image.now))) }
    ensures named { IfErr result (λ fault. (fault ≡ VolumeFault.NotAVolume)
        ⊎ ((fault ≡ VolumeFault.Version) ⊎ IsDamage fault)) }
{
    if &image[..8] != MAGIC.as_slice() {
        return Err(VolumeFault::NotAVolume);
    }
    let version = match LittleEndian::read_u32(&image[8..]) {
        1 => Version::One,
        2 => Version::Two,
        4 => Version::Four,
        _ => return Err(VolumeFault::Version),
    };
    let numbers = Superblock {
        version,
        sectors: LittleEndian::read_u32(&image[12..]),
        slots: LittleEndian::read_u32(&image[16..]),
    };
    if has_ranges(&numbers) && write_superblock(&numbers) == *image {
        Ok(numbers)
    } else {
        Err(VolumeFault::Damaged(Damage {
            sector: Some(SUPERBLOCK),
            rule: Rule::Superblock,
        }))
    }
}

/// The first sector of a volume with these numbers.
pub(crate) fn write_superblock(numbers: &Superblock) -> Sector
    ensures { result ≡ superblock numbers.now }
{
    let mut image = [0; 512];
    put_bytes(&mut image, 0, &MAGIC);
    put_number(&mut image, 8, version_number(numbers.version));
    put_number(&mut image, 12, numbers.sectors);
    put_number(&mut image, 16, numbers.slots);
    image
}

/// The number of a version.
pub(crate) fn version_number(version: Version) -> u32
    ensures { result ≡ version_number version }
{
    match version {
        Version::One => 1,
        Version::Two => 2,
        Version::Four => 4,
    }
}

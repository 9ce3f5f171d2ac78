//! Why a volume is refused.

ghost use Rattle.std.specs.Prelude.{◌≡◌, ◌↔◌};
ghost use Rattle.vol_sector.specs.Fault.{IsDamage, at_sector};
ghost use Rattle.vol_sector.specs.declared.fault.VolumeFault.TheVariants.{Device, Memory};

use crate::DeviceFault;
use std::alloc::AllocError;
use thiserror::Error;

/// A rule of a volume's format that may be broken, as `docs/VOLUME.md` has it.
#[derive(Clone, Copy, Debug, PartialEq, Eq)]
pub enum Rule {
    /// The superblock's numbers are in their ranges, and the rest of it is zeros.
    Superblock,
    /// The device has all sectors that the superblock names.
    DeviceSize,
    /// The log's header has a count to 120, and different sectors after the log; the rest is zeros.
    LogHeader,
    /// An unused slot is zeros, and the kind of an entry is 3 or 4.
    Kind,
    /// The root is a directory without a name.
    Root,
    /// A name is 1 to 255 bytes of UTF-8 without `/` and NUL, not `.` or `..`.
    Name,
    /// The bytes between the fields of an entry are zeros.
    Zeros,
    /// The size of a directory is 0, and that of a file at most the version's limit.
    Size,
    /// Pointers, and numbers of pointer sectors, at or past the size are 0.
    PointerPastSize,
    /// Serial 1 is the root, and no other entry has no parent.
    RootSerial,
    /// No two entries agree in parent and name.
    NameTwice,
    /// A pointer, or a number of a pointer sector, is 0 or the number of a data sector.
    Pointer,
    /// No data sector is named twice.
    SectorTwice,
    /// The bytes of a file's last block past its size are zeros.
    LastBlock,
    /// The needs of all files add up to at most the number of data sectors.
    Space,
    /// The parent of an entry is a directory.
    Parent,
    /// Parents lead to the root.
    Ancestors,
}

/// Which rule is broken, and where.
#[derive(Clone, Copy, Debug, PartialEq, Eq)]
pub struct Damage {
    /// The sector that breaks it, where it is known: of an entry that of its slot.
    pub sector: Option<u32>,
    pub rule: Rule,
}

/// Why a volume is refused. The text is the fault's number.
#[derive(Clone, Copy, Debug, PartialEq, Eq, Error)]
pub enum VolumeFault {
    /// There are too few sectors, or the first bytes are not those of a volume.
    #[error("fault 30")]
    NotAVolume,
    /// The volume has a version that is not known.
    #[error("fault 31")]
    Version,
    /// The volume breaks another rule of its format.
    #[error("fault 32")]
    Damaged(Damage),
    /// The device failed.
    #[error("fault 33")]
    Device,
    /// The device has fewer sectors than were asked for.
    #[error("fault 34")]
    TooSmall,
    /// The volume has the newest version already.
    #[error("fault 35")]
    Upgraded,
    /// A number of sectors or slots is out of its range.
    #[error("fault 36")]
    Geometry,
    /// Memory was refused.
    #[error("out of memory")]
    Memory,
}

impl VolumeFault {
    /// It with the sector of its damage, where that isn't known yet.
    pub fn at(self, sector: u32) -> VolumeFault
        ensures is { result ≡ at_sector self sector }
        ensures damage { IsDamage result ↔ IsDamage self }
        ensures other { (IsDamage self → ⊥) → result ≡ self }
    {
        match self {
            VolumeFault::Damaged(Damage { sector: None, rule }) => {
                VolumeFault::Damaged(Damage {
                    sector: Some(sector),
                    rule,
                })
            }
            fault => fault,
        }
    }
}

/// A refusal, which hands the device back.
#[derive(Drop)]
pub struct Refused<D> {
    pub device: D,
    pub fault: VolumeFault,
}

impl From<DeviceFault> for VolumeFault {
    ghost from_gives = { λ _ e. e ≡ Device };

    fn from(_: DeviceFault) -> Self {
        VolumeFault::Device
    }
}

impl From<AllocError> for VolumeFault {
    ghost from_gives = { λ _ e. e ≡ Memory };

    fn from(_: AllocError) -> Self {
        VolumeFault::Memory
    }
}

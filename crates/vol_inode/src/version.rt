//! The versions of a volume.

ghost use Rattle.std.specs.Prelude.{◌≡◌};

/// The greatest size of a file in bytes, in any version.
pub const LARGEST_SIZE: u32 = 1_082_225_664;

/// The version of a volume's format. In version 2 files may be greater, and in version 4 still greater.
#[derive(Clone, Copy, Debug, PartialEq, Eq)]
pub enum Version {
    One = 1,
    Two = 2,
    Four = 4,
}

impl Version {
    ghost use Rattle.vol_inode.specs.Space.{size_limit};

    /// The greatest size of a file in bytes.
    pub fn size_limit(self) -> u32
        ensures { result ≡ size_limit self }
    {
        match self {
            Version::One => 95_232,
            Version::Two => 8_483_840,
            Version::Four => LARGEST_SIZE,
        }
    }
}

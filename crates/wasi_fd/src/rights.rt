//! What descriptors allow.

ghost use Rattle.std.specs.Prelude.{⊤, ◌≡◌, [], ◌∷◌, codes};

use bitflags::{Flag, Flags, bitflag_items};

/// The rights of WASI preview 1 that have a call, by their bits.
#[derive(Clone, Copy)]
pub struct Rights(u64);

bitflag_items! {
    impl Rights: u64 {
        const FD_DATASYNC = 0x1;
        const FD_READ = 0x2;
        const FD_SEEK = 0x4;
        const FD_SYNC = 0x10;
        const FD_TELL = 0x20;
        const FD_WRITE = 0x40;
        const PATH_CREATE_DIRECTORY = 0x200;
        const PATH_CREATE_FILE = 0x400;
        const PATH_OPEN = 0x2000;
        const FD_READDIR = 0x4000;
        const PATH_RENAME_SOURCE = 0x1_0000;
        const PATH_RENAME_TARGET = 0x2_0000;
        const PATH_FILESTAT_GET = 0x4_0000;
        const PATH_FILESTAT_SET_SIZE = 0x8_0000;
        const FD_FILESTAT_GET = 0x20_0000;
        const FD_FILESTAT_SET_SIZE = 0x40_0000;
        const PATH_REMOVE_DIRECTORY = 0x200_0000;
        const PATH_UNLINK_FILE = 0x400_0000;
    }
}

impl Flags for Rights {
    type Bits = u64;

    ghost exact = { ⊤ };

    ghost table = { (codes "FD_DATASYNC", 1) ∷ (codes "FD_READ", 2) ∷ (codes "FD_SEEK", 4)
        ∷ (codes "FD_SYNC", 16) ∷ (codes "FD_TELL", 32) ∷ (codes "FD_WRITE", 64)
        ∷ (codes "PATH_CREATE_DIRECTORY", 512) ∷ (codes "PATH_CREATE_FILE", 1024)
        ∷ (codes "PATH_OPEN", 8192) ∷ (codes "FD_READDIR", 16384)
        ∷ (codes "PATH_RENAME_SOURCE", 65536) ∷ (codes "PATH_RENAME_TARGET", 131072)
        ∷ (codes "PATH_FILESTAT_GET", 262144) ∷ (codes "PATH_FILESTAT_SET_SIZE", 524288)
        ∷ (codes "FD_FILESTAT_GET", 2097152) ∷ (codes "FD_FILESTAT_SET_SIZE", 4194304)
        ∷ (codes "PATH_REMOVE_DIRECTORY", 33554432) ∷ (codes "PATH_UNLINK_FILE", 67108864) ∷ [] };

    ghost set_of = { λ r. r.0 };

    fn flags<'a>() -> &'a [Flag<Rights>] {
        Rights::FLAGS
    }

    fn bits(&self) -> u64 {
        self.0
    }

    fn from_bits_retain(bits: u64) -> Rights {
        Rights(bits)
    }
}

impl Rights {
    ghost use Rattle.wasi_fd.specs.Rights.{bits_of, file_rights, directory_rights, all_rights};

    /// What an open file can be asked for.
    pub fn file() -> Rights
        ensures { bits_of result ≡ file_rights }
    {
        Rights(0x60_0077)
    }

    /// What an open directory can be asked for.
    pub fn directory() -> Rights
        ensures { bits_of result ≡ directory_rights }
    {
        Rights(0x62f_6611)
    }

    /// All rights that there are: what an entry below a preopened directory may be given.
    pub fn every() -> Rights
        ensures { bits_of result ≡ all_rights }
    {
        Rights(0x66f_6677)
    }
}

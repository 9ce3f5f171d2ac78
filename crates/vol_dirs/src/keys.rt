//! The keys that names and children are found by.

ghost use Rattle.std.specs.Prelude.{◌≡◌, ◌≤◌, length};
ghost use Rattle.byteorder.specs.Endian.{big_bytes};
ghost use Rattle.vol_dirs.specs.Key.{key_of};

use byteorder::{BigEndian, ByteOrder};

/// The key of a name in a directory: the directory's serial, the name, then zeros.
pub fn key_of(parent: u32, name: &[u8]) -> [u8; 259]
    requires { length name.now ≤ 255 }
    ensures { result ≡ key_of parent name.now }
{
    let mut key = [0; 259];
    BigEndian::write_u32(&mut key, parent);
    key[4..4 + name.len()].copy_from_slice(name);
    key
}

/// The key of a child of this directory.
pub fn child_key_of(parent: u32) -> [u8; 4]
    ensures { result ≡ big_bytes 4 parent }
{
    let mut key = [0; 4];
    BigEndian::write_u32(&mut key, parent);
    key
}

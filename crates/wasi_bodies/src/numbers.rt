//! Numbers as the guest reads them, the lowest byte first.

ghost use Rattle.std.specs.Prelude.{◌≡◌};
ghost use Rattle.byteorder.specs.Endian.{little_bytes};

use byteorder::{ByteOrder, LittleEndian};

/// A number of 4 bytes.
pub fn le32(n: u32) -> [u8; 4]
    ensures { result ≡ little_bytes 4 n }
{
    let mut bytes = [0; 4];
    LittleEndian::write_u32(&mut bytes, n);
    bytes
}

/// A number of 8 bytes.
pub fn le64(n: u64) -> [u8; 8]
    ensures { result ≡ little_bytes 8 n }
{
    let mut bytes = [0; 8];
    LittleEndian::write_u64(&mut bytes, n);
    bytes
}

/// The lowest 4 bytes of a number.
pub fn low32(n: u64) -> [u8; 4]
    ensures { result ≡ little_bytes 4 n }
{
    let bytes = le64(n);
    [bytes[0], bytes[1], bytes[2], bytes[3]]
}

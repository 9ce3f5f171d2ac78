//! Stores of the low bytes of a number.

ghost use Rattle.std.specs.Prelude.{◌≡◌, ◌+◌, ◌≤◌, length};
ghost use Rattle.std.specs.Bool.{OnTrue, OnFalse};
ghost use Rattle.wasm_store.specs.Bytes.{to_bytes, written};
ghost use Rattle.wasm_lowering.specs.Tables.{bytes_in};

use wasm_lowering::Width;
use wasm_store::Memory;

/// The lowest byte of a number.
pub fn low_8(x: u64) -> u8
    ensures { to_bytes 1 result ≡ to_bytes 1 x }
{
    (x & 0xff) as u8
}

/// The two lowest bytes of a number.
pub fn low_16(x: u64) -> u16
    ensures { to_bytes 2 result ≡ to_bytes 2 x }
{
    (x & 0xffff) as u16
}

/// The four lowest bytes of a number.
pub fn low_32(x: u64) -> u32
    ensures { to_bytes 4 result ≡ to_bytes 4 x }
{
    (x & 0xffff_ffff) as u32
}

/// Writes a number's low bytes at an address, or nothing where they would pass the end.
#[inline(always)]
pub fn store_low(width: Width, base: u32, offset: u32, x: u64, memory: &mut Memory) -> bool
    ensures inside { OnTrue result ((base + offset + bytes_in width ≤ length memory.old)
        × (memory.new ≡ written memory.old (base + offset) (to_bytes (bytes_in width) x))) }
    ensures outside { OnFalse result (memory.new ≡ memory.old) }
{
    match width {
        Width::One => memory.store_u8(base, offset, low_8(x)),
        Width::Two => memory.store_u16(base, offset, low_16(x)),
        Width::Four => memory.store_u32(base, offset, low_32(x)),
        Width::Eight => memory.store_u64(base, offset, x),
    }
}

//! Conversions between i32 and i64 (section 4.3.4).

ghost use Rattle.std.specs.Prelude.{◌≡◌, ◌%◌, ◌^◌};
ghost use Rattle.wasm_num.specs.Numbers.{signed, wrapped};

/// The number modulo 2 ^ 32.
pub fn i32_wrap_i64(x: u64) -> u32
    ensures { result ≡ x % 2 ^ 32 }
{
    (x & 0xffff_ffff) as u32
}

/// The signed number, modulo 2 ^ 64.
pub fn i64_extend_i32_s(x: u32) -> u64
    ensures { result ≡ wrapped 64 (signed 32 x) }
{
    i64::from(x.cast_signed()).cast_unsigned()
}

/// The number itself.
pub fn i64_extend_i32_u(x: u32) -> u64
    ensures { result ≡ x }
{
    u64::from(x)
}

//! Integers in LEB128 (section 5.2.2).

ghost use Rattle.std.specs.Prelude.{◌≡◌, ◌^◌, ◌<◌, ◌≤◌, IfOk};
ghost use Rattle.wasm_syntax.specs.Reading.{Gives, last_at, number_at};

use crate::fault::LoadFault;

/// How the bits of a number are read. In LEB128 those that it doesn't need are 0, or repeat its sign.
#[derive(Clone, Copy)]
pub enum Sign {
    Unsigned,
    Signed,
}

/// Where a number begins in the input, and where the bytes that it may take end.
#[derive(Clone, Copy)]
pub struct NumberSpan {
    pub begin: u32,
    pub end: u32,
}

/// The number of this many bits that ends in this byte.
#[inline(always)]
#[tactic(auto, using(crate::proofs::Powers::double, crate::proofs::Powers::half_is))]
pub fn last(sign: Sign, bits: u32, byte: u8, span: NumberSpan) -> Result<u64, LoadFault>
    requires byte { byte < 128 }
    requires some { 0 < bits }
    requires fits { bits ≤ 64 }
    ensures value { Gives (λ n. n) result (last_at sign bits byte) }
    ensures within { IfOk result (λ n. n < 2 ^ bits) }
{
    let value = u64::from(byte);
    let half = 1u64 << (bits - 1);
    match sign {
        Sign::Unsigned if value / 2 < half => Ok(value),
        Sign::Signed if value < 64 && value < half => Ok(value),
        Sign::Signed if value >= 64 && 128 - value <= half => Ok(half - (128 - value) + half),
        _ => Err(LoadFault::BadInteger { offset: span.begin }),
    }
}

/// The number of this many bits at the front, modulo 2 to that power, and the bytes after it.
#[tactic(auto, using(crate::proofs::Powers::seven, crate::proofs::Powers::below_64))]
pub fn number(
    sign: Sign,
    bits: u32,
    bytes: &[u8],
    span: NumberSpan,
) -> Result<(u64, &[u8]), LoadFault>
    requires some { 0 < bits }
    requires fits { bits ≤ 64 }
    ensures value { Gives (λ x. (x.0, x.1.now)) result (number_at sign bits bytes.now) }
    ensures within { IfOk result (λ x. x.0 < 2 ^ bits) }
{
    let Some((first, rest)) = bytes.split_first() else {
        return Err(LoadFault::Truncated { offset: span.end });
    };
    let first = *first;
    if first < 128 {
        let value = last(sign, bits, first, span)?;
        return Ok((value, rest));
    }
    if bits <= 7 {
        return Err(LoadFault::BadInteger { offset: span.begin });
    }
    let (high, rest) = number(sign, bits - 7, rest, span)?;
    Ok((u64::from(first) - 128 + 128 * high, rest))
}

//! Small guests that compute with floats: the code that leaves one number, the code that makes an i64 of its bits, and these
//! bits, as another engine gives them, or the trap. A NaN that is computed is the positive canonical one.

use super::super::assert_row;
use super::{Ending, Pace, guest, run_valid};
use std::alloc::{AllocError, Global};
use wasm_interp::{Outcome, Pause, Trap};
use wasm_module::{Profile, decode_with};
use wasm_valid::validate;

/// How the bits of each type become an i64.
const F64: &[u8] = b"\xBD";

const F32: &[u8] = b"\xBC\xAD";

const I32: &[u8] = b"\xAD";

const I64: &[u8] = b"";

type Row = (&'static [u8], &'static [u8], Result<u64, Trap>);

static ROWS: [Row; 61] = [
    // f32.eq -0.0 0.0
    (
        b"\x43\x00\x00\x00\x80\x43\x00\x00\x00\x00\x5B",
        I32,
        Ok(0x1),
    ),
    // f64.ne nan nan
    (
        b"\x44\x00\x00\x00\x00\x00\x00\xF8\x7F\x44\x00\x00\x00\x00\x00\x00\xF8\x7F\x62",
        I32,
        Ok(0x1),
    ),
    // f32.lt 1 2
    (
        b"\x43\x00\x00\x80\x3F\x43\x00\x00\x00\x40\x5D",
        I32,
        Ok(0x1),
    ),
    // f64.gt 2 1
    (
        b"\x44\x00\x00\x00\x00\x00\x00\x00\x40\x44\x00\x00\x00\x00\x00\x00\xF0\x3F\x64",
        I32,
        Ok(0x1),
    ),
    // f32.le nan 1
    (
        b"\x43\x00\x00\xC0\x7F\x43\x00\x00\x80\x3F\x5F",
        I32,
        Ok(0x0),
    ),
    // f64.ge 1 1
    (
        b"\x44\x00\x00\x00\x00\x00\x00\xF0\x3F\x44\x00\x00\x00\x00\x00\x00\xF0\x3F\x66",
        I32,
        Ok(0x1),
    ),
    // f32.abs -1.5
    (b"\x43\x00\x00\xC0\xBF\x8B", F32, Ok(0x3fc00000)),
    // f64.neg nan
    (
        b"\x44\x00\x00\x00\x00\x00\x00\xF8\x7F\x9A",
        F64,
        Ok(0xfff8000000000000),
    ),
    // f32.ceil -0.5
    (b"\x43\x00\x00\x00\xBF\x8D", F32, Ok(0x80000000)),
    // f64.floor -0.5
    (
        b"\x44\x00\x00\x00\x00\x00\x00\xE0\xBF\x9C",
        F64,
        Ok(0xbff0000000000000),
    ),
    // f32.trunc -1.5
    (b"\x43\x00\x00\xC0\xBF\x8F", F32, Ok(0xbf800000)),
    // f64.nearest 2.5
    (
        b"\x44\x00\x00\x00\x00\x00\x00\x04\x40\x9E",
        F64,
        Ok(0x4000000000000000),
    ),
    // f64.sqrt -1.5
    (
        b"\x44\x00\x00\x00\x00\x00\x00\xF8\xBF\x9F",
        F64,
        Ok(0x7ff8000000000000),
    ),
    // f32.sqrt 2.0
    (b"\x43\x00\x00\x00\x40\x91", F32, Ok(0x3fb504f3)),
    // f64.add 0.1 0.2
    (
        b"\x44\x9A\x99\x99\x99\x99\x99\xB9\x3F\x44\x9A\x99\x99\x99\x99\x99\xC9\x3F\xA0",
        F64,
        Ok(0x3fd3333333333334),
    ),
    // f32.sub inf inf
    (
        b"\x43\x00\x00\x80\x7F\x43\x00\x00\x80\x7F\x93",
        F32,
        Ok(0x7fc00000),
    ),
    // f32.mul 1e+38 1e+38
    (
        b"\x43\x99\x76\x96\x7E\x43\x99\x76\x96\x7E\x94",
        F32,
        Ok(0x7f800000),
    ),
    // f64.div 1 3
    (
        b"\x44\x00\x00\x00\x00\x00\x00\xF0\x3F\x44\x00\x00\x00\x00\x00\x00\x08\x40\xA3",
        F64,
        Ok(0x3fd5555555555555),
    ),
    // f32.min -0.0 0.0
    (
        b"\x43\x00\x00\x00\x80\x43\x00\x00\x00\x00\x96",
        F32,
        Ok(0x80000000),
    ),
    // f64.max 1 nan
    (
        b"\x44\x00\x00\x00\x00\x00\x00\xF0\x3F\x44\x00\x00\x00\x00\x00\x00\xF8\x7F\xA5",
        F64,
        Ok(0x7ff8000000000000),
    ),
    // f32.copysign 3.0 -0.0
    (
        b"\x43\x00\x00\x40\x40\x43\x00\x00\x00\x80\x98",
        F32,
        Ok(0xc0400000),
    ),
    // a8 -2147483648.0
    (b"\x43\x00\x00\x00\xCF\xA8", I32, Ok(0x80000000)),
    // a9 -0.9
    (b"\x43\x66\x66\x66\xBF\xA9", I32, Ok(0x0)),
    // aa 2147483648.0
    (
        b"\x44\x00\x00\x00\x00\x00\x00\xE0\x41\xAA",
        I32,
        Err(Trap::IntegerOverflow),
    ),
    // ab nan
    (
        b"\x44\x00\x00\x00\x00\x00\x00\xF8\x7F\xAB",
        I32,
        Err(Trap::InvalidConversion),
    ),
    // ae 1.5
    (b"\x43\x00\x00\xC0\x3F\xAE", I64, Ok(0x1)),
    // af -1.0
    (b"\x43\x00\x00\x80\xBF\xAF", I64, Err(Trap::IntegerOverflow)),
    // b0 9.223372036854776e+18
    (
        b"\x44\x00\x00\x00\x00\x00\x00\xE0\x43\xB0",
        I64,
        Err(Trap::IntegerOverflow),
    ),
    // b1 1.5
    (b"\x44\x00\x00\x00\x00\x00\x00\xF8\x3F\xB1", I64, Ok(0x1)),
    // fc 0 1e+30
    (b"\x43\xCA\xF2\x49\x71\xFC\x00", I32, Ok(0x7fffffff)),
    // fc 1 -1.0
    (b"\x43\x00\x00\x80\xBF\xFC\x01", I32, Ok(0x0)),
    // fc 2 nan
    (
        b"\x44\x00\x00\x00\x00\x00\x00\xF8\x7F\xFC\x02",
        I32,
        Ok(0x0),
    ),
    // fc 3 1e+30
    (
        b"\x44\xEA\x8C\xA0\x39\x59\x3E\x29\x46\xFC\x03",
        I32,
        Ok(0xffffffff),
    ),
    // fc 4 -1e+30
    (b"\x43\xCA\xF2\x49\xF1\xFC\x04", I64, Ok(0x8000000000000000)),
    // fc 5 inf
    (b"\x43\x00\x00\x80\x7F\xFC\x05", I64, Ok(0xffffffffffffffff)),
    // fc 6 123456.789
    (
        b"\x44\xC9\x76\xBE\x9F\x0C\x24\xFE\x40\xFC\x06",
        I64,
        Ok(0x1e240),
    ),
    // fc 7 1.5
    (
        b"\x44\x00\x00\x00\x00\x00\x00\xF8\x3F\xFC\x07",
        I64,
        Ok(0x1),
    ),
    // b2 16777217
    (b"\x41\x81\x80\x80\x08\xB2", F32, Ok(0x4b800000)),
    // b3 -1
    (b"\x41\x7F\xB3", F32, Ok(0x4f800000)),
    // b7 -1
    (b"\x41\x7F\xB7", F64, Ok(0xbff0000000000000)),
    // b8 -1
    (b"\x41\x7F\xB8", F64, Ok(0x41efffffffe00000)),
    // b4 9223372036854775807
    (
        b"\x42\xFF\xFF\xFF\xFF\xFF\xFF\xFF\xFF\xFF\x00\xB4",
        F32,
        Ok(0x5f000000),
    ),
    // b5 9223372311732682753
    (
        b"\x42\x81\x80\x80\x80\x80\x88\x80\x80\x80\x7F\xB5",
        F32,
        Ok(0x5f000000),
    ),
    // b9 9007199254740993
    (
        b"\x42\x81\x80\x80\x80\x80\x80\x80\x10\xB9",
        F64,
        Ok(0x4340000000000000),
    ),
    // ba -1
    (b"\x42\x7F\xBA", F64, Ok(0x43f0000000000000)),
    // demote 0.1
    (
        b"\x44\x9A\x99\x99\x99\x99\x99\xB9\x3F\xB6",
        F32,
        Ok(0x3dcccccd),
    ),
    // demote nan
    (
        b"\x44\x00\x00\x00\x00\x00\x00\xF8\x7F\xB6",
        F32,
        Ok(0x7fc00000),
    ),
    // promote 0.1
    (b"\x43\xCD\xCC\xCC\x3D\xBB", F64, Ok(0x3fb99999a0000000)),
    // signalling 64 stays
    (
        b"\x44\x23\x01\x00\x00\x00\x00\xF0\xFF",
        F64,
        Ok(0xfff0000000000123),
    ),
    // neg of signalling
    (
        b"\x44\x23\x01\x00\x00\x00\x00\xF0\xFF\x9A",
        F64,
        Ok(0x7ff0000000000123),
    ),
    // from bits
    (
        b"\x42\x80\x80\x80\x80\x80\x80\x80\xFC\x3F\xBF",
        F64,
        Ok(0x3ff8000000000000),
    ),
    // from bits 32
    (b"\x41\x80\x80\x80\xFE\x03\xBE", F32, Ok(0x3fc00000)),
    // store64 load32
    (
        b"\x41\x00\x44\x9A\x99\x99\x99\x99\x99\xB9\x3F\x39\x03\x00\x41\x04\x2A\x02\x00",
        F32,
        Ok(0x3fb99999),
    ),
    // store32 load i32
    (
        b"\x41\x00\x43\xCD\xCC\xCC\x3D\x38\x02\x00\x41\x00\x28\x02\x00",
        I32,
        Ok(0x3dcccccd),
    ),
    // store i64 load64
    (
        b"\x41\x08\x42\x7E\x37\x03\x00\x41\x08\x2B\x03\x00",
        F64,
        Ok(0xfffffffffffffffe),
    ),
    // store out
    (
        b"\x41\xFC\xFF\x03\x44\x9A\x99\x99\x99\x99\x99\xB9\x3F\x39\x03\x00\x41\x00\x2B\x03\x00",
        F64,
        Err(Trap::OutOfBoundsMemory),
    ),
    // load out
    (
        b"\x41\xFD\xFF\x03\x2A\x02\x00",
        F32,
        Err(Trap::OutOfBoundsMemory),
    ),
    // select
    (
        b"\x44\x00\x00\x00\x00\x00\x00\xF0\x3F\x44\x00\x00\x00\x00\x00\x00\x00\x40\x41\x00\x1B",
        F64,
        Ok(0x4000000000000000),
    ),
    // if
    (
        b"\x41\x01\x04\x7D\x43\x00\x00\x80\x3F\x05\x43\x00\x00\x00\x40\x0B",
        F32,
        Ok(0x3f800000),
    ),
    // block br_if
    (
        b"\x02\x7C\x44\x00\x00\x00\x00\x00\x00\x1C\x40\x41\x01\x0D\x00\x1A\x44\x00\x00\x00\x00\x00\x00\x20\x40\x0B",
        F64,
        Ok(0x401c000000000000),
    ),
    // sum in a chain
    (
        b"\x44\x00\x00\x00\x00\x00\x00\xF0\x3F\x44\x00\x00\x00\x00\x00\x00\x00\x40\xA0\x44\x00\x00\x00\x00\x00\x00\x08\x40\xA2\x44\x00\x00\x00\x00\x00\x00\xE0\x3F\xA3",
        F64,
        Ok(0x4032000000000000),
    ),
];

/// A guest that hands its host 0 and the number that the code leaves.
fn telling(alloc: Global, code: &[u8], bits: &[u8]) -> Result<Vec<u8>, AllocError> {
    let code = [b"\x41\x00", code, bits, b"\x10\x01\x1A\x0B"].concat(alloc)?;
    guest(alloc, &code)
}

fn float_ending(alloc: Global, bytes: &[u8]) -> Option<Ending> {
    let pace = Pace {
        units: 1_000,
        times: 1,
        most_values: None,
    };
    let module = decode_with(alloc, bytes, Profile::Floats).ok()?;
    run_valid(alloc, validate(alloc, module).ok()?, pace)
}

/// What the host was told, or why the guest trapped.
fn told(alloc: Global, code: &[u8], bits: &[u8]) -> Option<Result<u64, Trap>> {
    let bytes = telling(alloc, code, bits).ok()?;
    match float_ending(alloc, &bytes)? {
        (Pause::Called(_, _), _, seen) => Some(Ok(seen.1)),
        (Pause::Ended(Outcome::Trapped(trap)), _, _) => Some(Err(trap)),
        _ => None,
    }
}

#[test]
fn floats(rt: HostRuntime) {
    for (i, (code, bits, want)) in ROWS.iter().enumerate() {
        assert_row(&rt, i, told(rt.alloc(), code, bits) == Some(*want));
    }
}

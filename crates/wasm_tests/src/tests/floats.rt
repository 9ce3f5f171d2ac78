//! Operators on floats by rows of bits: the operator, its operands, and what it makes of them. Values are those of the
//! standard's own tests, and of exact fractions that were rounded apart from this program.

use super::assert_row;
use std::process::Abort;
use wasm_float::{
    Untruncated, f32_add, f32_ceil, f32_convert_i32_s, f32_convert_i64_u, f32_copysign,
    f32_demote_f64, f32_div, f32_eq, f32_floor, f32_max, f32_min, f32_mul, f32_ne, f32_nearest,
    f32_neg, f32_sqrt, f32_sub, f32_trunc, f64_abs, f64_add, f64_ceil, f64_convert_i32_u,
    f64_convert_i64_s, f64_convert_i64_u, f64_copysign, f64_div, f64_floor, f64_ge, f64_gt, f64_le,
    f64_lt, f64_max, f64_min, f64_mul, f64_nearest, f64_neg, f64_promote_f32, f64_sqrt, f64_sub,
    f64_trunc, i32_trunc_f64_s, i32_trunc_f64_u, i32_trunc_sat_f32_s, i64_trunc_f32_u,
    i64_trunc_f64_s, i64_trunc_sat_f64_u,
};

const ONE: u64 = 0x3ff0_0000_0000_0000;

const MINUS_ZERO: u64 = 0x8000_0000_0000_0000;

const INFINITY: u64 = 0x7ff0_0000_0000_0000;

/// The NaN that every arithmetic result has which is none of the numbers.
const NAN: u64 = 0x7ff8_0000_0000_0000;

/// A NaN that signals, with a payload and the sign.
const SIGNALLING: u64 = 0xfff0_0000_0000_0123;

const MINUS_ZERO_32: u32 = 0x8000_0000;

const NAN_32: u32 = 0x7fc0_0000;

/// Compares what was found with what is wanted.
fn assert_rows<T: PartialEq>(rt: &impl Abort, rows: &[(T, T)]) {
    for (i, (found, want)) in rows.iter().enumerate() {
        assert_row(rt, i, *found == *want);
    }
}

#[test]
fn numbers_of_64_bits(rt: HostRuntime) {
    assert_rows(
        &rt,
        &[
            (f64_add(ONE, ONE), 0x4000_0000_0000_0000),
            // 0.1 + 0.2, and 1 and the half of the last digit of 1
            (
                f64_add(0x3fb9_9999_9999_999a, 0x3fc9_9999_9999_999a),
                0x3fd3_3333_3333_3334,
            ),
            (f64_add(ONE, 0x3ca0_0000_0000_0000), ONE),
            (f64_add(INFINITY, 0xfff0_0000_0000_0000), NAN),
            (f64_sub(ONE, ONE), 0),
            (
                f64_mul(0x0010_0000_0000_0000, 0x3fe0_0000_0000_0000),
                0x0008_0000_0000_0000,
            ),
            (f64_mul(MINUS_ZERO, ONE), MINUS_ZERO),
            (f64_div(0, 0), NAN),
            (f64_div(ONE, MINUS_ZERO), 0xfff0_0000_0000_0000),
            (f64_div(ONE, 0x4008_0000_0000_0000), 0x3fd5_5555_5555_5555),
            (f64_sqrt(0x4000_0000_0000_0000), 0x3ff6_a09e_667f_3bcd),
            (f64_sqrt(MINUS_ZERO), MINUS_ZERO),
            (f64_sqrt(0xbff0_0000_0000_0000), NAN),
            // arithmetic loses a payload and the sign of a NaN, the others keep both
            (f64_add(SIGNALLING, ONE), NAN),
            (f64_neg(SIGNALLING), 0x7ff0_0000_0000_0123),
            (f64_abs(SIGNALLING), 0x7ff0_0000_0000_0123),
            (f64_copysign(0x7ff0_0000_0000_0123, MINUS_ZERO), SIGNALLING),
        ],
    );
}

#[test]
fn whole_numbers_and_order_of_64_bits(rt: HostRuntime) {
    assert_rows(
        &rt,
        &[
            (f64_max(MINUS_ZERO, 0), 0),
            (f64_min(0, MINUS_ZERO), MINUS_ZERO),
            (f64_max(ONE, SIGNALLING), NAN),
            // -0.5, 2.5, and the number above 0.5
            (f64_nearest(0xbfe0_0000_0000_0000), MINUS_ZERO),
            (f64_nearest(0x4004_0000_0000_0000), 0x4000_0000_0000_0000),
            (f64_nearest(0x3fe0_0000_0000_0001), ONE),
            (f64_ceil(0xbfe0_0000_0000_0000), MINUS_ZERO),
            (f64_floor(0xbfe0_0000_0000_0000), 0xbff0_0000_0000_0000),
            (f64_trunc(0xbfff_ffff_ffff_ffff), 0xbff0_0000_0000_0000),
            (u64::from(f64_lt(MINUS_ZERO, 0)), 0),
            (u64::from(f64_le(MINUS_ZERO, 0)), 1),
            (u64::from(f64_gt(INFINITY, ONE)), 1),
            (u64::from(f64_ge(NAN, NAN)), 0),
        ],
    );
}

#[test]
fn numbers_of_32_bits(rt: HostRuntime) {
    assert_rows(
        &rt,
        &[
            (f32_add(0x3f80_0000, 0x3380_0000), 0x3f80_0000),
            (f32_sub(0x7f80_0000, 0x7f80_0000), NAN_32),
            // the greatest number twice, and the least halved
            (f32_mul(0x7f7f_ffff, 0x4000_0000), 0x7f80_0000),
            (f32_mul(1, 0x3f00_0000), 0),
            (f32_div(0x3f80_0000, 0x4040_0000), 0x3eaa_aaab),
            (f32_sqrt(0x4000_0000), 0x3fb5_04f3),
            (f32_min(0, MINUS_ZERO_32), MINUS_ZERO_32),
            (f32_max(0xff80_0001, 0), NAN_32),
            (f32_ceil(1), 0x3f80_0000),
            (f32_floor(MINUS_ZERO_32 + 1), 0xbf80_0000),
            (f32_trunc(0x3fff_ffff), 0x3f80_0000),
            (f32_nearest(0x3fc0_0000), 0x4000_0000),
            (f32_neg(0x7f80_0001), 0xff80_0001),
            (f32_copysign(0x3f80_0000, 0xffc0_0000), 0xbf80_0000),
            (u32::from(f32_eq(NAN_32, NAN_32)), 0),
            (u32::from(f32_ne(NAN_32, NAN_32)), 1),
            (f32_convert_i32_s(-16_777_217), 0xcb80_0000),
            (f32_convert_i64_u(u64::MAX), 0x5f80_0000),
            // half way between the greatest number and 2^128, and the number before that
            (f32_demote_f64(0x47ef_ffff_f000_0000), 0x7f80_0000),
            (f32_demote_f64(0x47ef_ffff_efff_ffff), 0x7f7f_ffff),
        ],
    );
}

#[test]
fn conversions_to_64_bits(rt: HostRuntime) {
    assert_rows(
        &rt,
        &[
            // the least number above 0, and a NaN that signals
            (f64_promote_f32(1), 0x36a0_0000_0000_0000),
            (f64_promote_f32(0x7f80_0001), NAN),
            (f64_convert_i32_u(u32::MAX), 0x41ef_ffff_ffe0_0000),
            (f64_convert_i64_s(i64::MIN), 0xc3e0_0000_0000_0000),
            (f64_convert_i64_u(u64::MAX), 0x43f0_0000_0000_0000),
            (i64_trunc_sat_f64_u(INFINITY), u64::MAX),
            (i64_trunc_sat_f64_u(0xbff0_0000_0000_0000), 0),
            (i64_trunc_sat_f64_u(NAN), 0),
        ],
    );
}

#[test]
fn whole_numbers_or_why_not(rt: HostRuntime) {
    // 2^31, the number before it, -2^31 - 0.9, and a NaN
    assert_rows(
        &rt,
        &[
            (
                i32_trunc_f64_s(0x41e0_0000_0000_0000),
                Err(Untruncated::OutOfRange),
            ),
            (i32_trunc_f64_s(0x41df_ffff_ffff_ffff), Ok(2_147_483_647)),
            (i32_trunc_f64_s(0xc1e0_0000_001c_cccd), Ok(-2_147_483_648)),
            (i32_trunc_f64_s(NAN), Err(Untruncated::NotANumber)),
            (Ok(i32_trunc_sat_f32_s(0x4f00_0000)), Ok(i32::MAX)),
            (Ok(i32_trunc_sat_f32_s(NAN_32)), Ok(0)),
        ],
    );
    // -2^63, and the number before it
    assert_rows(
        &rt,
        &[
            (i64_trunc_f64_s(0xc3e0_0000_0000_0000), Ok(i64::MIN)),
            (
                i64_trunc_f64_s(0xc3e0_0000_0000_0001),
                Err(Untruncated::OutOfRange),
            ),
        ],
    );
    // the number above -1, 2^64, 2^32 and the number before it
    assert_rows(
        &rt,
        &[
            (i64_trunc_f32_u(0xbf7f_ffff), Ok(0)),
            (i64_trunc_f32_u(0x5f80_0000), Err(Untruncated::OutOfRange)),
        ],
    );
    assert_rows(
        &rt,
        &[
            (
                i32_trunc_f64_u(0x41f0_0000_0000_0000),
                Err(Untruncated::OutOfRange),
            ),
            (i32_trunc_f64_u(0x41ef_ffff_ffff_ffff), Ok(u32::MAX)),
        ],
    );
}

//! Operators by rows: the operator, its operands, and what it makes of them.

use super::assert_row;
use std::process::Abort;
use wasm_num::{
    i32_add, i32_and, i32_eq, i32_extend8_s, i32_extend16_s, i32_ge_s, i32_ge_u, i32_gt_s,
    i32_gt_u, i32_le_s, i32_le_u, i32_lt_s, i32_lt_u, i32_mul, i32_ne, i32_or, i32_rotl, i32_rotr,
    i32_shl, i32_sub, i32_wrap_i64, i32_xor, i64_add, i64_and, i64_clz, i64_eq, i64_extend_i32_s,
    i64_extend_i32_u, i64_extend8_s, i64_extend16_s, i64_extend32_s, i64_ge_s, i64_ge_u, i64_gt_s,
    i64_gt_u, i64_le_s, i64_le_u, i64_lt_s, i64_lt_u, i64_mul, i64_ne, i64_or, i64_sub, i64_xor,
};

const LEAST_32: u32 = 0x8000_0000;

const LEAST_64: u64 = 0x8000_0000_0000_0000;

const NEG_32: u32 = u32::MAX;

const NEG_64: u64 = u64::MAX;

/// Compares what was found with what is wanted.
fn assert_rows<T: PartialEq>(rt: &impl Abort, rows: &[(T, T)]) {
    for (i, (found, want)) in rows.iter().enumerate() {
        assert_row(rt, i, *found == *want);
    }
}

#[test]
fn sums_and_digits_32(rt: HostRuntime) {
    assert_rows(
        &rt,
        &[
            (i32_add(NEG_32, 1), 0),
            (i32_sub(0, 1), NEG_32),
            (i32_mul(LEAST_32, 2), 0),
            (i32_and(0xff00, 0x0ff0), 0x0f00),
            (i32_or(0xff00, 0x0ff0), 0xfff0),
            (i32_xor(0xff00, 0x0ff0), 0xf0f0),
            (i32_shl(1, 33), 2),
            (i32_rotl(0xabcd_9876, 32), 0xabcd_9876),
            (i32_rotl(0x8000_0001, 1), 3),
            (i32_rotr(3, 33), 0x8000_0001),
        ],
    );
}

#[test]
fn sums_and_digits_64(rt: HostRuntime) {
    assert_rows(
        &rt,
        &[
            (i64_add(NEG_64, 2), 1),
            (i64_sub(0, LEAST_64), LEAST_64),
            (i64_mul(NEG_64, NEG_64), 1),
            (i64_and(NEG_64, LEAST_64), LEAST_64),
            (i64_or(LEAST_64, 1), 0x8000_0000_0000_0001),
            (i64_xor(NEG_64, NEG_64), 0),
        ],
    );
}

#[test]
fn comparisons_32(rt: HostRuntime) {
    assert_rows(
        &rt,
        &[
            (i32_lt_s(LEAST_32, 0), true),
            (i32_lt_u(LEAST_32, 0), false),
            (i32_gt_u(NEG_32, 1), true),
            (i32_gt_s(NEG_32, 1), false),
            (i32_le_s(NEG_32, NEG_32), true),
            (i32_le_u(0, 0), true),
            (i32_le_u(1, 0), false),
            (i32_ge_s(0, NEG_32), true),
            (i32_ge_u(0, NEG_32), false),
            (i32_eq(7, 7), true),
            (i32_eq(7, 8), false),
            (i32_ne(7, 8), true),
            (i32_ne(7, 7), false),
        ],
    );
}

#[test]
fn comparisons_64(rt: HostRuntime) {
    assert_rows(
        &rt,
        &[
            (i64_lt_s(LEAST_64, 0), true),
            (i64_lt_u(LEAST_64, 0), false),
            (i64_gt_u(NEG_64, 1), true),
            (i64_gt_s(NEG_64, 1), false),
            (i64_le_s(NEG_64, NEG_64), true),
            (i64_le_u(0, 0), true),
            (i64_le_u(1, 0), false),
            (i64_ge_s(0, NEG_64), true),
            (i64_ge_u(0, NEG_64), false),
            (i64_eq(7, 7), true),
            (i64_eq(7, 8), false),
            (i64_ne(7, 8), true),
            (i64_ne(7, 7), false),
        ],
    );
}

#[test]
fn widths_32(rt: HostRuntime) {
    assert_rows(
        &rt,
        &[
            (i32_extend8_s(128), 4_294_967_168),
            (i32_extend8_s(0x17f), 127),
            (i32_extend16_s(0x8000), 0xffff_8000),
        ],
    );
}

#[test]
fn widths_64(rt: HostRuntime) {
    assert_rows(
        &rt,
        &[
            (i64_clz(0), 64),
            (i64_extend8_s(0x80), 0xffff_ffff_ffff_ff80),
            (i64_extend16_s(0x7fff), 0x7fff),
            (i64_extend32_s(6_442_450_944), 18_446_744_071_562_067_968),
        ],
    );
}

#[test]
fn conversions(rt: HostRuntime) {
    assert!(rt; i32_wrap_i64(0x1_0000_0002) == 2);
    assert!(rt; i64_extend_i32_s(LEAST_32) == 0xffff_ffff_8000_0000);
    assert!(rt; i64_extend_i32_u(LEAST_32) == 0x8000_0000);
}

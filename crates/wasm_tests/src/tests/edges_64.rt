//! The operators of i64 at the edges (section 4.3.2): 0, 1, -1, the least and the greatest number, and counts at and over
//! the width. The values were worked out by the definitions of the standard on whole numbers.

use super::assert_row;
use wasm_num::{
    Trap, i64_clz, i64_ctz, i64_div_s, i64_div_u, i64_eqz, i64_extend8_s, i64_extend16_s,
    i64_extend32_s, i64_popcnt, i64_rem_s, i64_rem_u, i64_rotl, i64_rotr, i64_shl, i64_shr_s,
    i64_shr_u,
};

/// Operands, and what shl, shr_s, shr_u, rotl and rotr make of them.
static SHIFTS_64: [(u64, u64, [u64; 5]); 15] = [
    (0, 0, [0, 0, 0, 0, 0]),
    (1, 0, [1, 1, 1, 1, 1]),
    (0, 1, [0, 0, 0, 0, 0]),
    (
        0x8000_0000_0000_0000,
        0xffff_ffff_ffff_ffff,
        [0, 0xffff_ffff_ffff_ffff, 1, 0x4000_0000_0000_0000, 1],
    ),
    (
        0xffff_ffff_ffff_ffff,
        0x8000_0000_0000_0000,
        [
            0xffff_ffff_ffff_ffff,
            0xffff_ffff_ffff_ffff,
            0xffff_ffff_ffff_ffff,
            0xffff_ffff_ffff_ffff,
            0xffff_ffff_ffff_ffff,
        ],
    ),
    (
        0x8000_0000_0000_0000,
        0,
        [
            0x8000_0000_0000_0000,
            0x8000_0000_0000_0000,
            0x8000_0000_0000_0000,
            0x8000_0000_0000_0000,
            0x8000_0000_0000_0000,
        ],
    ),
    (
        0x8000_0000_0000_0000,
        1,
        [
            0,
            0xc000_0000_0000_0000,
            0x4000_0000_0000_0000,
            1,
            0x4000_0000_0000_0000,
        ],
    ),
    (
        0xffff_ffff_ffff_ffff,
        0xffff_ffff_ffff_ffff,
        [
            0x8000_0000_0000_0000,
            0xffff_ffff_ffff_ffff,
            1,
            0xffff_ffff_ffff_ffff,
            0xffff_ffff_ffff_ffff,
        ],
    ),
    (
        0x7fff_ffff_ffff_ffff,
        1,
        [
            0xffff_ffff_ffff_fffe,
            0x3fff_ffff_ffff_ffff,
            0x3fff_ffff_ffff_ffff,
            0xffff_ffff_ffff_fffe,
            0xbfff_ffff_ffff_ffff,
        ],
    ),
    (
        1,
        0x3f,
        [0x8000_0000_0000_0000, 0, 0, 0x8000_0000_0000_0000, 2],
    ),
    (
        0x8000_0000_0000_0000,
        0x3f,
        [0, 0xffff_ffff_ffff_ffff, 1, 0x4000_0000_0000_0000, 1],
    ),
    (
        0xffff_ffff_ffff_ffff,
        0x40,
        [
            0xffff_ffff_ffff_ffff,
            0xffff_ffff_ffff_ffff,
            0xffff_ffff_ffff_ffff,
            0xffff_ffff_ffff_ffff,
            0xffff_ffff_ffff_ffff,
        ],
    ),
    (
        0x8000_0000_0000_0001,
        0x41,
        [
            2,
            0xc000_0000_0000_0000,
            0x4000_0000_0000_0000,
            3,
            0xc000_0000_0000_0000,
        ],
    ),
    (
        7,
        0xffff_ffff_ffff_fffe,
        [0xc000_0000_0000_0000, 0, 0, 0xc000_0000_0000_0001, 0x1c],
    ),
    (
        0xffff_ffff_ffff_fff9,
        2,
        [
            0xffff_ffff_ffff_ffe4,
            0xffff_ffff_ffff_fffe,
            0x3fff_ffff_ffff_fffe,
            0xffff_ffff_ffff_ffe7,
            0x7fff_ffff_ffff_fffe,
        ],
    ),
];

/// Operands, and what div_s, div_u, rem_s and rem_u make of them.
static DIVISIONS_64: [(u64, u64, [u64; 4]); 11] = [
    (0, 1, [0, 0, 0, 0]),
    (
        0xffff_ffff_ffff_ffff,
        0x8000_0000_0000_0000,
        [0, 1, 0xffff_ffff_ffff_ffff, 0x7fff_ffff_ffff_ffff],
    ),
    (
        0x8000_0000_0000_0000,
        1,
        [0x8000_0000_0000_0000, 0x8000_0000_0000_0000, 0, 0],
    ),
    (0xffff_ffff_ffff_ffff, 0xffff_ffff_ffff_ffff, [1, 1, 0, 0]),
    (
        0x7fff_ffff_ffff_ffff,
        1,
        [0x7fff_ffff_ffff_ffff, 0x7fff_ffff_ffff_ffff, 0, 0],
    ),
    (1, 0x3f, [0, 0, 1, 1]),
    (
        0x8000_0000_0000_0000,
        0x3f,
        [
            0xfdf7_df7d_f7df_7df8,
            0x208_2082_0820_8208,
            0xffff_ffff_ffff_fff8,
            8,
        ],
    ),
    (
        0xffff_ffff_ffff_ffff,
        0x40,
        [0, 0x3ff_ffff_ffff_ffff, 0xffff_ffff_ffff_ffff, 0x3f],
    ),
    (
        0x8000_0000_0000_0001,
        0x41,
        [
            0xfe07_e07e_07e0_7e08,
            0x1f8_1f81_f81f_81f8,
            0xffff_ffff_ffff_fff9,
            9,
        ],
    ),
    (7, 0xffff_ffff_ffff_fffe, [0xffff_ffff_ffff_fffd, 0, 1, 7]),
    (
        0xffff_ffff_ffff_fff9,
        2,
        [
            0xffff_ffff_ffff_fffd,
            0x7fff_ffff_ffff_fffc,
            0xffff_ffff_ffff_ffff,
            1,
        ],
    ),
];

/// Operands, and what clz, ctz, popcnt, extend8_s, extend16_s and extend32_s make of them.
static UNARY_64: [(u64, [u64; 6]); 11] = [
    (0, [0x40, 0x40, 0, 0, 0, 0]),
    (1, [0x3f, 0, 1, 1, 1, 1]),
    (
        0xffff_ffff_ffff_ffff,
        [
            0,
            0,
            0x40,
            0xffff_ffff_ffff_ffff,
            0xffff_ffff_ffff_ffff,
            0xffff_ffff_ffff_ffff,
        ],
    ),
    (0x8000_0000_0000_0000, [0, 0x3f, 1, 0, 0, 0]),
    (
        0x7fff_ffff_ffff_ffff,
        [
            1,
            0,
            0x3f,
            0xffff_ffff_ffff_ffff,
            0xffff_ffff_ffff_ffff,
            0xffff_ffff_ffff_ffff,
        ],
    ),
    (0x7f, [0x39, 0, 7, 0x7f, 0x7f, 0x7f]),
    (0x80, [0x38, 7, 1, 0xffff_ffff_ffff_ff80, 0x80, 0x80]),
    (
        0x7fff,
        [0x31, 0, 0xf, 0xffff_ffff_ffff_ffff, 0x7fff, 0x7fff],
    ),
    (0x8000, [0x30, 0xf, 1, 0, 0xffff_ffff_ffff_8000, 0x8000]),
    (
        0x7fff_ffff,
        [
            0x21,
            0,
            0x1f,
            0xffff_ffff_ffff_ffff,
            0xffff_ffff_ffff_ffff,
            0x7fff_ffff,
        ],
    ),
    (0x8000_0000, [0x20, 0x1f, 1, 0, 0, 0xffff_ffff_8000_0000]),
];

fn shifted(x: u64, y: u64) -> [u64; 5] {
    [
        i64_shl(x, y),
        i64_shr_s(x, y),
        i64_shr_u(x, y),
        i64_rotl(x, y),
        i64_rotr(x, y),
    ]
}

#[test]
fn shifts_64(rt: HostRuntime) {
    for (i, (x, y, want)) in SHIFTS_64.iter().enumerate() {
        assert_row(&rt, i, shifted(*x, *y) == *want);
    }
}

fn divided(x: u64, y: u64) -> [Result<u64, Trap>; 4] {
    [
        i64_div_s(x, y),
        i64_div_u(x, y),
        i64_rem_s(x, y),
        i64_rem_u(x, y),
    ]
}

fn quotients([div_s, div_u, rem_s, rem_u]: [u64; 4]) -> [Result<u64, Trap>; 4] {
    [Ok(div_s), Ok(div_u), Ok(rem_s), Ok(rem_u)]
}

#[test]
fn divisions_64(rt: HostRuntime) {
    for (i, (x, y, want)) in DIVISIONS_64.iter().enumerate() {
        assert_row(&rt, i, divided(*x, *y) == quotients(*want));
    }
}

#[test]
fn divisions_without_a_quotient_64(rt: HostRuntime) {
    let least = 0x8000_0000_0000_0000;
    let by_zero = [Err(Trap::DivideByZero); 4];
    let overflow = [Err(Trap::IntegerOverflow), Ok(0), Ok(0), Ok(least)];
    for (i, (x, y, want)) in [
        (0, 0, by_zero),
        (1, 0, by_zero),
        (least, 0, by_zero),
        (u64::MAX, 0, by_zero),
        (least, u64::MAX, overflow),
    ]
    .iter()
    .enumerate()
    {
        assert_row(&rt, i, divided(*x, *y) == *want);
    }
}

fn measured(x: u64) -> [u64; 6] {
    [
        i64_clz(x),
        i64_ctz(x),
        i64_popcnt(x),
        i64_extend8_s(x),
        i64_extend16_s(x),
        i64_extend32_s(x),
    ]
}

#[test]
fn unary_64(rt: HostRuntime) {
    for (i, (x, want)) in UNARY_64.iter().enumerate() {
        assert_row(&rt, i, i64_eqz(*x) == (*x == 0) && measured(*x) == *want);
    }
}

//! The operators of i32 at the edges (section 4.3.2): 0, 1, -1, the least and the greatest number, and counts at and over
//! the width. The values were worked out by the definitions of the standard on whole numbers.

use super::assert_row;
use wasm_num::{
    Trap, i32_clz, i32_ctz, i32_div_s, i32_div_u, i32_eqz, i32_extend8_s, i32_extend16_s,
    i32_popcnt, i32_rem_s, i32_rem_u, i32_rotl, i32_rotr, i32_shl, i32_shr_s, i32_shr_u,
};

/// Operands, and what shl, shr_s, shr_u, rotl and rotr make of them.
static SHIFTS_32: [(u32, u32, [u32; 5]); 15] = [
    (0, 0, [0, 0, 0, 0, 0]),
    (1, 0, [1, 1, 1, 1, 1]),
    (0, 1, [0, 0, 0, 0, 0]),
    (
        0x8000_0000,
        0xffff_ffff,
        [0, 0xffff_ffff, 1, 0x4000_0000, 1],
    ),
    (
        0xffff_ffff,
        0x8000_0000,
        [
            0xffff_ffff,
            0xffff_ffff,
            0xffff_ffff,
            0xffff_ffff,
            0xffff_ffff,
        ],
    ),
    (
        0x8000_0000,
        0,
        [
            0x8000_0000,
            0x8000_0000,
            0x8000_0000,
            0x8000_0000,
            0x8000_0000,
        ],
    ),
    (
        0x8000_0000,
        1,
        [0, 0xc000_0000, 0x4000_0000, 1, 0x4000_0000],
    ),
    (
        0xffff_ffff,
        0xffff_ffff,
        [0x8000_0000, 0xffff_ffff, 1, 0xffff_ffff, 0xffff_ffff],
    ),
    (
        0x7fff_ffff,
        1,
        [
            0xffff_fffe,
            0x3fff_ffff,
            0x3fff_ffff,
            0xffff_fffe,
            0xbfff_ffff,
        ],
    ),
    (1, 0x1f, [0x8000_0000, 0, 0, 0x8000_0000, 2]),
    (0x8000_0000, 0x1f, [0, 0xffff_ffff, 1, 0x4000_0000, 1]),
    (
        0xffff_ffff,
        0x20,
        [
            0xffff_ffff,
            0xffff_ffff,
            0xffff_ffff,
            0xffff_ffff,
            0xffff_ffff,
        ],
    ),
    (
        0x8000_0001,
        0x21,
        [2, 0xc000_0000, 0x4000_0000, 3, 0xc000_0000],
    ),
    (7, 0xffff_fffe, [0xc000_0000, 0, 0, 0xc000_0001, 0x1c]),
    (
        0xffff_fff9,
        2,
        [
            0xffff_ffe4,
            0xffff_fffe,
            0x3fff_fffe,
            0xffff_ffe7,
            0x7fff_fffe,
        ],
    ),
];

/// Operands, and what div_s, div_u, rem_s and rem_u make of them.
static DIVISIONS_32: [(u32, u32, [u32; 4]); 11] = [
    (0, 1, [0, 0, 0, 0]),
    (0xffff_ffff, 0x8000_0000, [0, 1, 0xffff_ffff, 0x7fff_ffff]),
    (0x8000_0000, 1, [0x8000_0000, 0x8000_0000, 0, 0]),
    (0xffff_ffff, 0xffff_ffff, [1, 1, 0, 0]),
    (0x7fff_ffff, 1, [0x7fff_ffff, 0x7fff_ffff, 0, 0]),
    (1, 0x1f, [0, 0, 1, 1]),
    (0x8000_0000, 0x1f, [0xfbde_f7be, 0x421_0842, 0xffff_fffe, 2]),
    (0xffff_ffff, 0x20, [0, 0x7ff_ffff, 0xffff_ffff, 0x1f]),
    (0x8000_0001, 0x21, [0xfc1f_07c2, 0x3e0_f83e, 0xffff_ffff, 3]),
    (7, 0xffff_fffe, [0xffff_fffd, 0, 1, 7]),
    (0xffff_fff9, 2, [0xffff_fffd, 0x7fff_fffc, 0xffff_ffff, 1]),
];

/// Operands, and what clz, ctz, popcnt, extend8_s and extend16_s make of them.
static UNARY_32: [(u32, [u32; 5]); 9] = [
    (0, [0x20, 0x20, 0, 0, 0]),
    (1, [0x1f, 0, 1, 1, 1]),
    (0xffff_ffff, [0, 0, 0x20, 0xffff_ffff, 0xffff_ffff]),
    (0x8000_0000, [0, 0x1f, 1, 0, 0]),
    (0x7fff_ffff, [1, 0, 0x1f, 0xffff_ffff, 0xffff_ffff]),
    (0x7f, [0x19, 0, 7, 0x7f, 0x7f]),
    (0x80, [0x18, 7, 1, 0xffff_ff80, 0x80]),
    (0x7fff, [0x11, 0, 0xf, 0xffff_ffff, 0x7fff]),
    (0x8000, [0x10, 0xf, 1, 0, 0xffff_8000]),
];

fn shifted(x: u32, y: u32) -> [u32; 5] {
    [
        i32_shl(x, y),
        i32_shr_s(x, y),
        i32_shr_u(x, y),
        i32_rotl(x, y),
        i32_rotr(x, y),
    ]
}

#[test]
fn shifts_32(rt: HostRuntime) {
    for (i, (x, y, want)) in SHIFTS_32.iter().enumerate() {
        assert_row(&rt, i, shifted(*x, *y) == *want);
    }
}

fn divided(x: u32, y: u32) -> [Result<u32, Trap>; 4] {
    [
        i32_div_s(x, y),
        i32_div_u(x, y),
        i32_rem_s(x, y),
        i32_rem_u(x, y),
    ]
}

fn quotients([div_s, div_u, rem_s, rem_u]: [u32; 4]) -> [Result<u32, Trap>; 4] {
    [Ok(div_s), Ok(div_u), Ok(rem_s), Ok(rem_u)]
}

#[test]
fn divisions_32(rt: HostRuntime) {
    for (i, (x, y, want)) in DIVISIONS_32.iter().enumerate() {
        assert_row(&rt, i, divided(*x, *y) == quotients(*want));
    }
}

#[test]
fn divisions_without_a_quotient_32(rt: HostRuntime) {
    let least = 0x8000_0000;
    let by_zero = [Err(Trap::DivideByZero); 4];
    let overflow = [Err(Trap::IntegerOverflow), Ok(0), Ok(0), Ok(least)];
    for (i, (x, y, want)) in [
        (0, 0, by_zero),
        (1, 0, by_zero),
        (least, 0, by_zero),
        (u32::MAX, 0, by_zero),
        (least, u32::MAX, overflow),
    ]
    .iter()
    .enumerate()
    {
        assert_row(&rt, i, divided(*x, *y) == *want);
    }
}

fn measured(x: u32) -> [u32; 5] {
    [
        i32_clz(x),
        i32_ctz(x),
        i32_popcnt(x),
        i32_extend8_s(x),
        i32_extend16_s(x),
    ]
}

#[test]
fn unary_32(rt: HostRuntime) {
    for (i, (x, want)) in UNARY_32.iter().enumerate() {
        assert_row(&rt, i, i32_eqz(*x) == (*x == 0) && measured(*x) == *want);
    }
}

//! What a guest is given: texts, the time, random bytes.

use super::guest::Step::{Call, Has, Put};
use super::guest::{PLAIN, assert_plain, assert_seeded, assert_with};
use wasi_calls::Settings;
use wasm_store::HostCall::{
    ArgsGet, ArgsSizesGet, ClockResGet, ClockTimeGet, EnvironGet, EnvironSizesGet, RandomGet,
};

#[test]
fn texts_stand_one_after_another(rt: HostRuntime) {
    let settings = Settings {
        args: &[b"a", b"", b"bc"],
        env: &[b"X=1"],
        ..PLAIN
    };
    assert_with(
        &rt,
        rt.alloc(),
        settings,
        &[
            Call(ArgsSizesGet, &[200, 204], 0),
            Has(200, b"\x03\0\0\0\x06\0\0\0"),
            Call(ArgsGet, &[200, 300], 0),
            Has(200, b"\x2C\x01\0\0\x2E\x01\0\0\x2F\x01\0\0"),
            Has(300, b"a\0\0bc\0"),
            Call(EnvironSizesGet, &[200, 204], 0),
            Has(200, b"\x01\0\0\0\x04\0\0\0"),
            Call(EnvironGet, &[200, 300], 0),
            Has(200, b"\x2C\x01\0\0"),
            Has(300, b"X=1\0"),
            // both ranges are asked first
            Put(300, b"...."),
            Call(EnvironGet, &[65_533, 300], 21),
            Call(EnvironGet, &[200, 65_533], 21),
            Has(300, b"...."),
        ],
    );
}

#[test]
fn random_bytes_are_those_handed_in(rt: HostRuntime) {
    let settings = Settings {
        random: b"\xAA\xBB\xCC",
        ..PLAIN
    };
    assert_with(
        &rt,
        rt.alloc(),
        settings,
        &[
            Call(RandomGet, &[200, 2], 0),
            Has(200, b"\xAA\xBB\0"),
            // too few are left, and none is taken
            Call(RandomGet, &[200, 2], 6),
            Call(RandomGet, &[65_536, 1], 21),
            Call(RandomGet, &[200, 1], 0),
            Has(200, b"\xCC\xBB\0"),
        ],
    );
}

/// The first bytes come from the documents: PCG32 as `rand_core` describes `seed_from_u64`, and ChaCha20 by RFC 8439. The
/// first 16 of seed 42 are `78 48 b5 d7 11 bc 98 83 99 63 17 a3 f9 c9 02 69`.
#[test]
fn a_seed_gives_its_bytes(rt: HostRuntime) {
    let steps = [
        Call(RandomGet, &[200, 6], 0),
        Has(200, b"\x78\x48\xB5\xD7\x11\xBC\0\0"),
        // none is taken where the range is no part of memory
        Call(RandomGet, &[65_536, 1], 21),
        Call(RandomGet, &[200, 0], 0),
        // what the second word had over is dropped
        Call(RandomGet, &[200, 5], 0),
        Has(200, b"\x99\x63\x17\xA3\xF9\xBC\0\0"),
    ];
    assert_seeded(&rt, rt.alloc(), 42, &steps);
}

#[test]
fn seeds_differ_and_repeat(rt: HostRuntime) {
    let of_one = [
        Call(RandomGet, &[200, 8], 0),
        Has(200, b"\x9A\x37\x44\x50\x45\x60\x63\x9E"),
    ];
    assert_seeded(&rt, rt.alloc(), 1, &of_one);
    assert_seeded(&rt, rt.alloc(), 1, &of_one);
    let of_none = [
        Call(RandomGet, &[200, 8], 0),
        Has(200, b"\xB2\xF7\xF5\x81\xD6\xDE\x3C\x06"),
    ];
    assert_seeded(&rt, rt.alloc(), 0, &of_none);
}

#[test]
fn clocks_are_told(rt: HostRuntime) {
    let settings = Settings {
        moment: 0x0102,
        ..PLAIN
    };
    assert_with(
        &rt,
        rt.alloc(),
        settings,
        &[
            Call(ClockTimeGet, &[0, 0, 200], 0),
            Has(200, b"\x02\x01\0\0\0\0\0\0"),
            Call(ClockTimeGet, &[1, 0, 200], 0),
            Has(200, b"\x04\0\0\0\0\0\0\0"),
            Call(ClockTimeGet, &[2, 0, 200], 28),
            Call(ClockResGet, &[1, 200], 0),
            Has(200, b"\x01\0\0\0\0\0\0\0"),
            Call(ClockResGet, &[2, 200], 28),
        ],
    );
}

#[test]
fn nothing_is_given(rt: HostRuntime) {
    assert_plain(
        &rt,
        rt.alloc(),
        &[
            Put(200, b"\x09\0\0\0\x09\0\0\0"),
            Call(ArgsSizesGet, &[200, 204], 0),
            Has(200, b"\0\0\0\0\0\0\0\0"),
            Call(ArgsGet, &[65_536, 65_536], 0),
            Call(RandomGet, &[200, 0], 0),
            Call(RandomGet, &[200, 1], 6),
        ],
    );
}

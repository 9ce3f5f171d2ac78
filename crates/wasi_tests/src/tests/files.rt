//! Files: their bytes, sizes and positions.

use super::guest::Step::{Call, Has, Open, Put};
use super::guest::{PLAIN, Prepared, assert_over, assert_plain, opened_on};
use super::streams::Feeding;
use wasm_store::HostCall::{
    FdFilestatGet, FdFilestatSetSize, FdPread, FdPwrite, FdRead, FdSeek, FdTell, FdWrite, PathOpen,
};

#[test]
fn a_size_takes_space(rt: HostRuntime) {
    assert_plain(
        &rt,
        rt.alloc(),
        &[
            Open(b"a", 1, 0),
            // 63 sectors and one of numbers, which are all
            Call(FdFilestatSetSize, &[4, 32_256], 0),
            Call(FdFilestatSetSize, &[4, 32_257], 51),
            Call(FdFilestatGet, &[4, 200], 0),
            Has(232, b"\x00\x7E\x00\x00\x00\x00\x00\x00"),
            // a directory, a stream, none
            Call(FdFilestatSetSize, &[3, 0], 31),
            Call(FdFilestatSetSize, &[1, 0], 28),
            Call(FdFilestatSetSize, &[5, 0], 8),
        ],
    );
}

/// A file as long as it can be, and then longer, where there are sectors enough.
#[test]
fn a_size_has_a_limit(rt: HostRuntime) {
    let volume = opened_on(rt.alloc(), 1_000, 0).expect(&rt, "no volume");
    assert_over(
        &rt,
        rt.alloc(),
        PLAIN,
        volume,
        Feeding::new(&[]),
        Prepared::Plain,
        &[
            Open(b"a", 1, 0),
            Call(FdFilestatSetSize, &[4, 95_232], 0),
            Call(FdFilestatSetSize, &[4, 95_233], 22),
            Call(FdFilestatGet, &[4, 200], 0),
            Has(232, b"\x00\x74\x01\0\0\0\0\0"),
        ],
    );
}

#[test]
fn bytes_that_were_cut_are_zeros(rt: HostRuntime) {
    assert_plain(
        &rt,
        rt.alloc(),
        &[
            Open(b"a", 1, 0),
            Put(200, b"\x2C\x01\0\0\x03\0\0\0"),
            Put(300, b"abc"),
            Call(FdWrite, &[4, 200, 1, 208], 0),
            Has(208, b"\x03\0\0\0"),
            Call(FdFilestatSetSize, &[4, 1], 0),
            Call(FdFilestatSetSize, &[4, 3], 0),
            Call(FdPread, &[4, 200, 1, 0, 208], 0),
            Has(208, b"\x03\0\0\0"),
            Has(300, b"a\0\0"),
        ],
    );
}

#[test]
fn long_writes_are_short(rt: HostRuntime) {
    assert_plain(
        &rt,
        rt.alloc(),
        &[
            Open(b"a", 1, 0),
            Put(200, b"\xE8\x03\0\0\x20\x4E\0\0"),
            Call(FdWrite, &[4, 200, 1, 208], 0),
            Has(208, b"\x00\x40\0\0"),
            Put(200, b"\xE8\x43\0\0\x20\x0E\0\0"),
            Call(FdWrite, &[4, 200, 1, 208], 0),
            Has(208, b"\x20\x0E\0\0"),
            Call(FdFilestatGet, &[4, 300], 0),
            Has(332, b"\x20\x4E\0\0\0\0\0\0"),
        ],
    );
}

#[test]
fn nothing_is_done_where_a_buffer_is_bad(rt: HostRuntime) {
    assert_plain(
        &rt,
        rt.alloc(),
        &[
            Open(b"a", 1, 0),
            Put(300, b"abc"),
            Put(200, b"\x2C\x01\0\0\x03\0\0\0\xFF\xFF\0\0\x02\0\0\0"),
            Call(FdWrite, &[4, 200, 2, 216], 21),
            Call(FdWrite, &[1, 200, 2, 216], 21),
            Call(FdFilestatGet, &[4, 400], 0),
            Has(432, b"\0\0\0\0\0\0\0\0"),
            Call(FdWrite, &[4, 200, 1, 216], 0),
            Put(300, b"xyz"),
            Call(FdPread, &[4, 200, 2, 0, 216], 21),
            Has(300, b"xyz"),
            // the result, too many buffers, an array past the end
            Call(FdPread, &[4, 200, 1, 0, 65_533], 21),
            Has(300, b"xyz"),
            Call(FdPread, &[4, 200, 1_025, 0, 216], 28),
            Call(FdRead, &[4, 65_532, 1, 216], 21),
            // empty buffers, as many as may be
            Call(FdWrite, &[4, 1_000, 1_024, 216], 0),
            Has(216, b"\0\0\0\0"),
            Call(FdWrite, &[4, 1_000, 1_025, 216], 28),
            // lengths that add up to 2 ^ 32, and to one less; the array is read first
            Put(400, b"\0\0\0\0\xFF\xFF\xFF\xFF\0\0\0\0\x01\0\0\0"),
            Call(FdWrite, &[4, 400, 2, 70_000], 28),
            Call(FdWrite, &[4, 400, 1, 216], 21),
            Call(FdWrite, &[4, 65_529, 1, 216], 21),
            Call(FdWrite, &[4, 65_536, 0, 216], 0),
            Call(FdWrite, &[4, 65_537, 0, 216], 21),
            // arguments are read modulo 2 ^ 32
            Call(FdWrite, &[(1 << 32) + 4, 200, 1, 216], 0),
            Has(216, b"\x03\0\0\0"),
        ],
    );
}

#[test]
fn reads_move_the_position(rt: HostRuntime) {
    assert_plain(
        &rt,
        rt.alloc(),
        &[
            Open(b"a", 1, 0),
            Put(300, b"abcdef"),
            Put(200, b"\x2C\x01\0\0\x06\0\0\0"),
            Call(FdWrite, &[4, 200, 1, 216], 0),
            Call(FdTell, &[4, 216], 0),
            Has(216, b"\x06\0\0\0\0\0\0\0"),
            Call(FdSeek, &[4, 1, 0, 216], 0),
            Has(216, b"\x01\0\0\0\0\0\0\0"),
            Put(200, b"\x2C\x01\0\0\x02\0\0\0\x40\x01\0\0\x0A\0\0\0"),
            Put(300, b"......"),
            Call(FdRead, &[4, 200, 2, 216], 0),
            Has(216, b"\x05\0\0\0"),
            Has(300, b"bc...."),
            Has(320, b"def\0"),
            // at the end
            Call(FdRead, &[4, 200, 2, 216], 0),
            Has(216, b"\0\0\0\0"),
            Call(FdPread, &[4, 200, 2, 7, 216], 0),
            Has(216, b"\0\0\0\0"),
            // where buffers overlap the later one has its bytes
            Put(200, b"\x2C\x01\0\0\x04\0\0\0\x2E\x01\0\0\x02\0\0\0"),
            Call(FdPread, &[4, 200, 2, 0, 216], 0),
            Has(216, b"\x06\0\0\0"),
            Has(300, b"abef"),
            // neither moves it
            Call(FdPwrite, &[4, 200, 1, 4, 216], 0),
            Call(FdTell, &[4, 216], 0),
            Has(216, b"\x06\0\0\0\0\0\0\0"),
            // from the end, below 0, no such place to count from
            Call(FdSeek, &[4, 0, 2, 216], 0),
            Has(216, b"\x08\0\0\0\0\0\0\0"),
            Call(FdSeek, &[4, u64::MAX, 0, 216], 28),
            Call(FdSeek, &[4, (1 << 63) - 1, 1, 216], 61),
            Call(FdSeek, &[4, 0, 3, 216], 28),
            // streams and directories
            Call(FdSeek, &[0, 0, 0, 216], 70),
            Call(FdPread, &[0, 200, 1, 0, 216], 70),
            Call(FdRead, &[3, 200, 1, 216], 31),
            Call(FdRead, &[1, 200, 1, 216], 76),
        ],
    );
}

#[test]
fn appended_bytes_come_last(rt: HostRuntime) {
    assert_plain(
        &rt,
        rt.alloc(),
        &[
            Put(100, b"a"),
            Call(PathOpen, &[3, 0, 100, 1, 1, u64::MAX, 0, 1, 104], 0),
            Has(104, b"\x04\0\0\0"),
            Put(300, b"abc"),
            Put(200, b"\x2C\x01\0\0\x03\0\0\0"),
            Call(FdWrite, &[4, 200, 1, 208], 0),
            Call(FdSeek, &[4, 0, 0, 216], 0),
            Call(FdWrite, &[4, 200, 1, 208], 0),
            Call(FdTell, &[4, 216], 0),
            Has(216, b"\x06\0\0\0\0\0\0\0"),
            // at its offset also so
            Put(300, b"x"),
            Put(200, b"\x2C\x01\0\0\x01\0\0\0"),
            Call(FdPwrite, &[4, 200, 1, 1, 208], 0),
            Put(200, b"\x2C\x01\0\0\x09\0\0\0"),
            Call(FdPread, &[4, 200, 1, 0, 208], 0),
            Has(208, b"\x06\0\0\0"),
            Has(300, b"axcabc"),
        ],
    );
}

#[test]
fn rights_are_asked(rt: HostRuntime) {
    assert_plain(
        &rt,
        rt.alloc(),
        &[
            Put(100, b"a"),
            Call(PathOpen, &[3, 0, 100, 1, 1, 2, 0, 0, 104], 0),
            Call(FdWrite, &[4, 200, 0, 216], 76),
            Call(FdSeek, &[4, 1, 0, 216], 76),
            Call(FdSeek, &[4, 0, 1, 216], 76),
            Call(FdRead, &[4, 200, 0, 216], 0),
        ],
    );
}

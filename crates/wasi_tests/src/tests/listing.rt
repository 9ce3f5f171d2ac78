//! What directories hold.

use super::guest::Step::{Call, Has, On, Open, Put};
use super::guest::assert_plain;
use wasm_store::HostCall::{FdClose, FdReaddir, PathUnlinkFile};

const A: &[u8] = b"\x02\0\0\0\0\0\0\0\x02\0\0\0\0\0\0\0\x01\0\0\0\x04\0\0\0a";

const B: &[u8] = b"\x03\0\0\0\0\0\0\0\x03\0\0\0\0\0\0\0\x01\0\0\0\x04\0\0\0b";

#[test]
fn entries_come_by_their_serials(rt: HostRuntime) {
    assert_plain(
        &rt,
        rt.alloc(),
        &[
            Open(b"a", 1, 0),
            Open(b"b", 1, 0),
            Put(300, &[9; 60]),
            Call(FdReaddir, &[3, 300, 30, 0, 200], 0),
            Has(200, b"\x1E\0\0\0"),
            Has(300, A),
            // the last is cut, and nothing stands after it
            Has(325, b"\x03\0\0\0\0\x09\x09\x09"),
            Call(FdReaddir, &[3, 300, 30, 2, 200], 0),
            Has(200, b"\x19\0\0\0"),
            Has(300, B),
            // the same where the entry of the cookie is gone
            Call(FdClose, &[4], 0),
            On(PathUnlinkFile, b"a", 0),
            Call(FdReaddir, &[3, 300, 30, 2, 200], 0),
            Has(200, b"\x19\0\0\0"),
            Has(300, B),
            // none is after the last, and none has such a serial
            Call(FdReaddir, &[3, 300, 30, 3, 200], 0),
            Has(200, b"\0\0\0\0"),
            Call(FdReaddir, &[3, 300, 30, 1 << 32, 200], 0),
            Has(200, b"\0\0\0\0"),
        ],
    );
}

#[test]
fn a_listing_is_refused(rt: HostRuntime) {
    assert_plain(
        &rt,
        rt.alloc(),
        &[
            Open(b"a", 1, 0),
            Call(FdReaddir, &[4, 300, 30, 0, 200], 54),
            Call(FdReaddir, &[1, 300, 30, 0, 200], 54),
            Call(FdReaddir, &[5, 300, 30, 0, 200], 8),
            // at the end of memory and after it
            Put(200, b"\x09\0\0\0"),
            Call(FdReaddir, &[3, 65_536, 0, 0, 200], 0),
            Has(200, b"\0\0\0\0"),
            Call(FdReaddir, &[3, 65_537, 0, 0, 200], 21),
            Call(FdReaddir, &[3, 300, 30, 0, 65_533], 21),
            Has(300, &[0; 30]),
        ],
    );
}

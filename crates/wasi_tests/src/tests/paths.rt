//! Paths, and what they name.

use super::guest::Step::{Call, Has, On, Open, Put, Rename};
use super::guest::{Flaky, STAT, Step, assert_plain, assert_steps, host, opened, over};
use super::streams::{Feeding, Taking};
use std::alloc::Global;
use std::process::Abort;
use std::test::Fail;
use wasi_calls::{HostFault, HostParts, Preopen, Settings};
use wasm_store::HostCall::{
    FdClose, FdFdstatGet, FdFilestatGet, FdPrestatDirName, FdPrestatGet, PathCreateDirectory,
    PathFilestatGet, PathOpen, PathRemoveDirectory, PathRename, PathUnlinkFile,
};

#[test]
fn paths_lead_to_entries(rt: HostRuntime) {
    assert_plain(
        &rt,
        rt.alloc(),
        &[
            On(PathCreateDirectory, b"d", 0),
            On(PathCreateDirectory, b"d", 20),
            Open(b"x", 1, 0),
            On(PathFilestatGet, b"d/../x", 0),
            // its serial and its type
            Has(STAT + 8, b"\x03\0\0\0\0\0\0\0\x04"),
            On(PathFilestatGet, b"d/../../x", 76),
            On(PathFilestatGet, b"/x", 76),
            On(PathFilestatGet, b"", 44),
            On(PathFilestatGet, b"y", 44),
            On(PathFilestatGet, b"x/", 54),
            On(PathFilestatGet, b"x\0", 28),
            On(PathFilestatGet, b"\xFF", 25),
            On(PathFilestatGet, &[b'n'; 256], 37),
            On(PathUnlinkFile, b"d/", 31),
            On(PathUnlinkFile, b"y", 44),
            On(PathUnlinkFile, b"x", 10),
            On(PathRemoveDirectory, b"x", 54),
            On(PathRemoveDirectory, b"y", 44),
            On(PathRemoveDirectory, b".", 10),
            On(PathRemoveDirectory, b"d", 0),
        ],
    );
}

#[test]
fn entries_are_opened(rt: HostRuntime) {
    assert_plain(
        &rt,
        rt.alloc(),
        &[
            On(PathCreateDirectory, b"d", 0),
            Open(b"x", 0, 44),
            Open(b"x/", 1, 31),
            Open(b"x", 16, 28),
            Open(b"x", 3, 28),
            Open(b"x", 1, 0),
            Open(b"x", 5, 20),
            Open(b"x", 2, 54),
            Open(b"d", 1, 31),
            Open(b"d", 8, 31),
            Open(b"d/y", 1, 0),
            Put(100, b"x"),
            Call(PathOpen, &[3, 0, 100, 1, 0, 0, 0, 2, 104], 58),
            Call(PathOpen, &[3, 0, 100, 1, 0, 0, 0, 32, 104], 28),
            Call(PathOpen, &[4, 0, 100, 1, 0, 0, 0, 0, 104], 54),
            Call(PathOpen, &[3, 0, 100, 1, 0, 0, 0, 0, 65_533], 21),
            // the least number that isn't open
            Call(FdClose, &[4], 0),
            Call(PathOpen, &[3, 0, 100, 1, 0, 0, 0, 0, 104], 0),
            Has(104, b"\x04\0\0\0"),
        ],
    );
}

#[test]
fn entries_are_renamed(rt: HostRuntime) {
    assert_plain(
        &rt,
        rt.alloc(),
        &[
            On(PathCreateDirectory, b"d", 0),
            On(PathCreateDirectory, b"d/e", 0),
            On(PathCreateDirectory, b"p", 0),
            Open(b"f", 1, 0),
            Open(b"g", 1, 0),
            Rename(b"d", b"d/e/f", 28),
            Rename(b"d", b"p/", 0),
            Rename(b"p", b"p", 0),
            On(PathFilestatGet, b"p/e", 0),
            Rename(b"g", b"f", 10),
            Rename(b"g", b"p", 31),
            Rename(b"p", b"g", 54),
            Rename(b"y", b"g", 44),
            Rename(b"g", b"y/", 54),
            Rename(b".", b"y", 10),
            // an open one may be moved
            Rename(b"g", b"p/h", 0),
            Call(FdFilestatGet, &[5, 200], 0),
            On(PathFilestatGet, b"g", 44),
            On(PathCreateDirectory, b"q", 0),
            Rename(b"q", b"p", 55),
            // the first path is read and walked before the second is read
            Put(100, b"y"),
            Call(PathRename, &[3, 100, 1, 3, 100, 0], 44),
        ],
    );
}

#[test]
fn slots_are_used_up(rt: HostRuntime) {
    assert_plain(
        &rt,
        rt.alloc(),
        &[
            On(PathCreateDirectory, b"a", 0),
            Open(b"b", 1, 0),
            Open(b"c", 1, 0),
            Open(b"d", 1, 0),
            Open(b"e", 1, 0),
            Open(b"f", 1, 0),
            Open(b"g", 1, 0),
            Open(b"h", 1, 0),
            Open(b"i", 1, 0),
            Open(b"j", 1, 0),
            Open(b"k", 1, 0),
            Open(b"l", 1, 0),
            Open(b"m", 1, 0),
            Open(b"n", 1, 0),
            Open(b"o", 1, 0),
            Open(b"p", 1, 51),
            On(PathCreateDirectory, b"p", 51),
            Open(b"b", 1, 0),
            Open(b"a", 1, 31),
        ],
    );
}

#[test]
fn descriptors_are_told(rt: HostRuntime) {
    assert_plain(
        &rt,
        rt.alloc(),
        &[
            Call(FdFdstatGet, &[3, 200], 0),
            Has(
                200,
                b"\x03\0\0\0\0\0\0\0\x11\x66\x2F\x06\0\0\0\0\x77\x66\x6F\x06\0\0\0\0",
            ),
            Open(b"a", 1, 0),
            Call(FdFdstatGet, &[4, 200], 0),
            Has(
                200,
                b"\x04\0\0\0\0\0\0\0\x77\0\x60\0\0\0\0\0\0\0\0\0\0\0\0\0",
            ),
            Call(FdPrestatGet, &[3, 200], 0),
            Has(200, b"\0\0\0\0\x01\0\0\0"),
            Call(FdPrestatDirName, &[3, 200, 1], 0),
            Has(200, b"/"),
            Call(FdPrestatDirName, &[3, 200, 0], 37),
            Call(FdPrestatGet, &[4, 200], 8),
        ],
    );
}

#[test]
fn all_numbers_are_open(rt: HostRuntime) -> Result<(), Fail> {
    let open = Open(b".", 0, 0);
    let full = Open(b".", 0, 33);
    let mut steps = vec![in rt.alloc(); open; 252]?;
    steps.extend_from_slice(&[
        full,
        Open(b"new", 1, 33),
        On(PathFilestatGet, b"new", 44),
        Call(FdClose, &[7], 0),
        open,
        full,
    ])?;
    assert_plain(&rt, rt.alloc(), &steps);
    Ok(())
}

/// Settings with one preopened directory, known as the root.
fn seeing<'a, 't>(preopens: &'a [Preopen<'t>]) -> Settings<'a, 't> {
    Settings {
        args: &[],
        env: &[],
        preopens,
        moment: 0,
        random: b"",
        pages: 1,
    }
}

/// Does the steps over a volume with this directory open, and gives the volume back.
fn within(rt: &impl Abort, alloc: Global, path: &[u8], volume: Flaky, steps: &[Step<'_>]) -> Flaky {
    let preopens = [Preopen {
        guest_name: b"/",
        path,
    }];
    let mut guest = over(
        rt,
        alloc,
        seeing(&preopens),
        volume,
        Feeding::new(&[]),
        Taking::all(alloc),
    );
    assert_steps(rt, alloc, &mut guest, steps);
    let HostParts { volume, .. } = guest.into_parts();
    volume
}

/// Makes a directory and a file beside it, does steps with that directory open, and looks at what stands then.
fn assert_within(rt: &impl Abort, alloc: Global, volume: Flaky) {
    let made = [On(PathCreateDirectory, b"d", 0), Open(b"x", 1, 0)];
    let outside = [
        Open(b"../x", 0, 76),
        On(PathUnlinkFile, b"../x", 76),
        Open(b"x", 0, 44),
        Open(b"x", 1, 0),
    ];
    let found = [On(PathFilestatGet, b"x", 0), On(PathFilestatGet, b"d/x", 0)];
    let volume = within(rt, alloc, b"/", volume, &made);
    let volume = within(rt, alloc, b"/d", volume, &outside);
    drop(within(rt, alloc, b"/", volume, &found));
}

#[test]
fn a_preopened_directory_is_all_there_is(rt: HostRuntime) {
    let volume = opened(rt.alloc(), 0).expect(&rt, "no volume");
    assert_within(&rt, rt.alloc(), volume);
}

/// Whether a host over a fresh volume with this directory is refused so.
fn is_refused(alloc: Global, path: &[u8], want: Option<HostFault>) -> bool {
    let preopens = [Preopen {
        guest_name: b"/",
        path,
    }];
    match opened(alloc, 0) {
        Some(volume) => {
            host(
                alloc,
                seeing(&preopens),
                volume,
                Feeding::new(&[]),
                Taking::all(alloc),
            )
            .err()
                == want
        }
        None => false,
    }
}

/// Paths, and why a directory of them is refused.
static PREOPENED: [(&[u8], Option<HostFault>); 7] = [
    (b"/", None),
    (b"/.", None),
    (b"/d", Some(HostFault::Preopen)),
    (b"d", Some(HostFault::Preopen)),
    (b"", Some(HostFault::Preopen)),
    (b"//", Some(HostFault::Preopen)),
    (b"/..", Some(HostFault::Preopen)),
];

#[test]
fn directories_are_preopened(rt: HostRuntime) {
    for (i, (path, want)) in PREOPENED.iter().enumerate() {
        assert!(rt; is_refused(rt.alloc(), path, *want), "row {i}");
    }
}

//! Guests that use a volume: what they print, what stands in the next session, and what stands where the device fails.

use super::guests::{APPEND, CUT, FILES, INPUT, LARGE, LISTING, LONG};
use super::sessions::{
    Disk, Ran, assert_none, faulty, formatted, formatted_with, fresh, memory_of, mounted, run_over,
};
use sandbox_core::{Outcome, Report, Volume};
use std::alloc::Global;
use std::process::Abort;
use vol_inode::{Serial, Version, is_name};
use vol_sector::{Device, MemoryDevice};

/// More than any guest here uses.
const FUEL: u64 = 1_000;

/// Whether a guest came to its end and printed exactly this.
fn is_printed<D: Device>(report: &Ran<D>, line: &[u8]) -> bool {
    report.outcome == Outcome::Exited(0) && report.out.held.as_slice() == line
}

/// Whether all was committed at a run's end, and the device.
fn left<D: Device + Drop>(report: Ran<D>) -> (bool, D) {
    let Report { volume, .. } = report;
    match volume {
        Ok(volume) => (true, volume.into_device()),
        Err(refused) => (false, refused.device),
    }
}

/// Runs a guest to its end over the volume on a device, and gives the device back where the guest printed exactly this
/// and all was committed.
fn printed<D: Device + Drop>(
    rt: &impl Abort,
    alloc: Global,
    module: &[u8],
    device: D,
    input: &'static [u8],
    line: &[u8],
) -> Option<D> {
    let report = run_over(rt, alloc, module, device, input, FUEL).expect(rt, "a session");
    let is_right = is_printed(&report, line);
    let (is_whole, device) = left(report);
    (is_right && is_whole).then_some(device)
}

/// A guest, its input, and what it prints.
type Printing = (&'static [u8], &'static [u8], &'static [u8]);

static PRINTING: [Printing; 4] = [
    (CUT, b"", b"a\0\0"),
    (LONG, b"", b"\0\x40\0\0\x20\x0E\0\0\x20\x4E\0\0\0\0\0\0"),
    (
        LISTING,
        b"",
        b"\x02\0\0\0\0\0\0\0\x02\0\0\0\0\0\0\0\x01\0\0\0\x04\0\0\0a\x03\0\0\0\0\x1E\0\0\0",
    ),
    (INPUT, b"abcd", b"abc\0\x03d\0\0\0\x01\0\0\0\0\0"),
];

/// Whether a guest over a fresh volume prints exactly this.
fn prints(rt: &impl Abort, alloc: Global, row: &Printing) -> bool {
    printed(rt, alloc, row.0, fresh(rt, alloc), row.1, row.2).is_some()
}

/// The first row of a guest that doesn't print what it says.
fn wrong_print(rt: &impl Abort, alloc: Global) -> Option<usize> {
    for (i, row) in PRINTING.iter().enumerate() {
        if !prints(rt, alloc, row) {
            return Some(i);
        }
    }
    None
}

#[test]
fn guests_print_what_files_hold(rt: HostRuntime) {
    assert_none(&rt, wrong_print(&rt, rt.alloc()));
}

/// The device with its volume made one of a newer version.
fn upgraded<D: Device + Drop>(rt: &impl Abort, alloc: Global, device: D, to: Version) -> D {
    let mut volume = mounted(alloc, device).expect(rt, "a volume");
    assert!(rt; volume.upgrade(to).is_ok());
    volume.into_device()
}

/// A device with a fresh volume of this many sectors, which is upgraded where it is to have a newer version.
fn of_version(rt: &impl Abort, alloc: Global, sectors: u32, version: Version) -> Disk {
    let device = formatted_with(alloc, sectors).expect(rt, "a device");
    let disk = faulty(device, 0, u64::MAX);
    match version {
        Version::One => disk,
        to => upgraded(rt, alloc, disk, to),
    }
}

/// Whether sessions of a guest, one after another on a device, print these lines.
fn print_in_turn<D: Device + Drop>(
    rt: &impl Abort,
    alloc: Global,
    module: &[u8],
    device: D,
    lines: &[&[u8]],
) -> bool {
    let mut device = device;
    for line in lines {
        match printed(rt, alloc, module, device, b"", line) {
            Some(left) => device = left,
            None => return false,
        }
    }
    true
}

/// A guest, the sectors of a fresh volume, its version, and what sessions of the guest print on it one after another.
type Turns = (&'static [u8], u32, Version, &'static [&'static [u8]]);

static APPENDING: [Turns; 2] = [
    (
        APPEND,
        202,
        Version::One,
        &[b"abc", b"abcabc", b"abcabcabc"],
    ),
    (
        APPEND,
        202,
        Version::Two,
        &[b"abc", b"abcabc", b"abcabcabc"],
    ),
];

/// The errno of each size and of the calls after them, and what was read.
static LARGER: [Turns; 2] = [
    (
        LARGE,
        1_000,
        Version::One,
        &[
            b"\0\x16\x16\x16\x16\x16\0\0\0\0",
            b"\0\x16\x16\x16\x16\x16\0\0\0\0",
        ],
    ),
    (
        LARGE,
        1_000,
        Version::Two,
        &[b"\0\0\0\x33\x16\0\0abc", b"\0\0\0\x33\x16\0\0abc"],
    ),
];

/// Whether a row's sessions print what it says.
fn are_printed(rt: &impl Abort, alloc: Global, row: &Turns) -> bool {
    let device = of_version(rt, alloc, row.1, row.2);
    print_in_turn(rt, alloc, row.0, device, row.3)
}

/// The first row whose sessions don't print what it says.
fn wrong_turn(rt: &impl Abort, alloc: Global, rows: &[Turns]) -> Option<usize> {
    for (i, row) in rows.iter().enumerate() {
        if !are_printed(rt, alloc, row) {
            return Some(i);
        }
    }
    None
}

#[test]
fn the_next_session_finds_the_files(rt: HostRuntime) {
    assert_none(&rt, wrong_turn(&rt, rt.alloc(), &APPENDING));
}

#[test]
fn files_are_larger_on_an_upgraded_volume(rt: HostRuntime) {
    assert_none(&rt, wrong_turn(&rt, rt.alloc(), &LARGER));
}

/// Whether a file is in the root.
fn has<D: Device>(rt: &impl Abort, volume: &mut Volume<D>, name: &[u8]) -> bool {
    assert!(rt; is_name(name));
    let inode = volume
        .lookup(Serial::ROOT, name)
        .ok()
        .expect(rt, "an answer");
    inode.is_some()
}

/// Which of the files p, q and r a volume has, in this order, and how many sectors their bytes need.
fn holds<D: Device>(rt: &impl Abort, volume: &mut Volume<D>) -> ([bool; 3], u32) {
    let there = [
        has(rt, volume, b"p"),
        has(rt, volume, b"q"),
        has(rt, volume, b"r"),
    ];
    (there, volume.stats().needed)
}

/// The same of the volume on a device. None where it can't be opened.
fn found<D: Device + Drop>(rt: &impl Abort, alloc: Global, device: D) -> Option<([bool; 3], u32)> {
    let mut volume = mounted(alloc, device)?;
    let found = holds(rt, &mut volume);
    drop(volume);
    Some(found)
}

/// Whether what was found is what a first part of the calls made, with all up to the sync where that was answered.
fn is_a_first_part(synced: bool, found: ([bool; 3], u32)) -> bool {
    match found {
        ([true, true, true], 0 | 32 | 40) => true,
        ([true, true, false], 0) => !synced,
        ([true, false, false], 0) => !synced,
        ([false, false, false], 0) => !synced,
        _ => false,
    }
}

/// Whether a call after one that failed may answer this: 29, or 8 where the file was never opened.
fn fails(errno: u8, opened: bool) -> bool {
    errno == 29 || (errno == 8 && !opened)
}

/// How many calls answered 0 before the first that failed, as all after it did.
fn succeeded(told: &[u8]) -> Option<usize> {
    let mut count = 0_usize;
    let mut failing = false;
    let mut is_right = told.len() == 6;
    for errno in told {
        if *errno == 0 && !failing {
            count = count.saturating_add(1);
        } else {
            failing = true;
            is_right &= fails(*errno, count > 0);
        }
    }
    is_right.then_some(count)
}

/// How many calls of the guest succeeded, where it told what it should, whether all was committed at the end, and the
/// device.
fn ran<D: Device + Drop>(
    rt: &impl Abort,
    alloc: Global,
    device: D,
) -> Option<(Option<usize>, bool, D)> {
    let report = run_over(rt, alloc, FILES, device, b"", FUEL)?;
    let count = succeeded(report.out.held.as_slice());
    let (is_whole, device) = left(report);
    Some((count, is_whole, device))
}

/// Whether a device's volume can be opened and holds what a first part of the calls made.
fn holds_a_first_part(
    rt: &impl Abort,
    alloc: Global,
    device: MemoryDevice,
    count: Option<usize>,
) -> bool {
    match (count, found(rt, alloc, faulty(device, 0, u64::MAX))) {
        (Some(count), Some(found)) => is_a_first_part(count > 3, found),
        _ => false,
    }
}

/// Whether the guest, on a device whose operation of this number fails, leaves a first part, and whether it came to its
/// end. None where it can't begin.
fn failed(rt: &impl Abort, alloc: Global, failing: u64) -> Option<(bool, bool)> {
    let device = formatted(alloc).expect(rt, "a device");
    let (count, whole, disk) = ran(rt, alloc, faulty(device, failing, u64::MAX))?;
    Some((
        holds_a_first_part(rt, alloc, memory_of(disk), count),
        whole && count == Some(6),
    ))
}

/// Which writes a crash keeps.
static PICKS: [&[u32]; 4] = [
    &[],
    &[9; 99],
    &[0, 9, 0, 9, 0, 9, 0, 9],
    &[9, 0, 9, 0, 9, 0, 9, 0, 9],
];

/// Whether each of some images that a crash of a device may leave has a first part.
fn crashes_well(
    rt: &impl Abort,
    alloc: Global,
    device: &MemoryDevice,
    count: Option<usize>,
) -> bool {
    let mut is_right = true;
    for picks in &PICKS {
        let image = device.crashed(alloc, picks).ok().expect(rt, "an image");
        is_right &= holds_a_first_part(rt, alloc, image, count);
    }
    is_right
}

/// The same for each of some images that a stop after this many operations may leave.
fn stopped(rt: &impl Abort, alloc: Global, operations: u64) -> Option<(bool, bool)> {
    let device = formatted(alloc).expect(rt, "a device");
    let (count, whole, disk) = ran(rt, alloc, faulty(device, 0, operations))?;
    let device = memory_of(disk);
    let is_right = crashes_well(rt, alloc, &device, count);
    drop(device);
    Some((is_right, whole))
}

/// How a device breaks at an operation: it fails that one, or stops there.
#[derive(Clone, Copy)]
enum Break {
    Fails,
    Stops,
}

/// What `failed` or `stopped` says.
fn broken(rt: &impl Abort, alloc: Global, way: Break, operations: u64) -> Option<(bool, bool)> {
    match way {
        Break::Fails => failed(rt, alloc, operations),
        Break::Stops => stopped(rt, alloc, operations),
    }
}

/// Counts operations up until the guest comes to its end, which takes more than 20 of them.
fn assert_first_parts(rt: &impl Abort, alloc: Global, way: Break) {
    for operations in 1..1_000 {
        let Some((is_right, whole)) = broken(rt, alloc, way, operations) else {
            assert!(rt; operations < 100, "never begun");
            continue;
        };
        assert!(rt; is_right, "operation {operations}");
        if whole {
            assert!(rt; operations > 20);
            return;
        }
    }
    panic!(rt; "never at its end");
}

#[test]
fn one_failing_operation_leaves_a_first_part(rt: HostRuntime) {
    assert_first_parts(&rt, rt.alloc(), Break::Fails);
}

#[test]
fn every_stop_leaves_a_first_part(rt: HostRuntime) {
    assert_first_parts(&rt, rt.alloc(), Break::Stops);
}

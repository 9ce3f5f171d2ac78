//! A device of whose operations one fails, in the middle of a guest's calls.

use super::guest::{PLAIN, host, opened};
use super::streams::{Feeding, Taking};
use std::alloc::{AllocError, Global};
use wasm_store::HostCall::{
    FdDatasync, FdPread, FdPwrite, FdRead, FdReaddir, FdSeek, FdSync, FdWrite, PathCreateDirectory,
    PathFilestatGet, PathOpen, PathRename, PathUnlinkFile,
};
use wasm_store::{Answer, Errno, Host, HostCall, Memory};

/// Calls that all reach the volume, in memory with `ab` at 100 and a buffer of 10,000 bytes at 200.
static CALLS: [(HostCall, &[u64]); 15] = [
    (PathCreateDirectory, &[3, 100, 1]),
    (PathOpen, &[3, 0, 101, 1, 1, u64::MAX, 0, 0, 104]),
    (FdWrite, &[4, 200, 1, 208]),
    (FdWrite, &[4, 200, 1, 208]),
    (FdSync, &[4]),
    (FdPwrite, &[4, 200, 1, 3, 208]),
    (FdPread, &[4, 200, 1, 3, 208]),
    (FdSeek, &[4, 0, 2, 208]),
    (FdRead, &[4, 200, 1, 208]),
    (FdDatasync, &[4]),
    (FdReaddir, &[3, 1_000, 60, 0, 208]),
    (PathFilestatGet, &[3, 0, 101, 1, 300]),
    (PathRename, &[3, 101, 1, 3, 102, 1]),
    (PathUnlinkFile, &[3, 103, 1]),
    (FdSync, &[4]),
];

/// What the calls answer where the device works: only the last path isn't there.
fn working(i: usize) -> u16 {
    if i == 13 { 44 } else { 0 }
}

/// Makes the calls in turn. Once one of them answers 29 all others do. How many answered as they would where all works.
fn answered<H: Host>(guest: &mut H, memory: &mut Memory) -> Option<usize> {
    let mut count: usize = 0;
    for (i, (call, arguments)) in CALLS.iter().enumerate() {
        match guest.call(memory, 1, *call, arguments) {
            Answer::Value(Errno(errno)) if errno == working(i) && count == i => count += 1,
            Answer::Value(Errno(29)) => {}
            // the file wasn't opened
            Answer::Value(Errno(8)) if count < 2 => {}
            _ => return None,
        }
    }
    Some(count)
}

fn page(alloc: Global) -> Result<Memory, AllocError> {
    let mut memory = Memory::new(alloc, 1)?;
    let _ = memory.write(100, b"abcd");
    let _ = memory.write(200, b"\xE8\x03\0\0\x10\x27\0\0");
    Ok(memory)
}

/// The same in a page of memory.
fn answered_in_page<H: Host>(alloc: Global, guest: &mut H) -> Option<usize> {
    match page(alloc) {
        Ok(mut memory) => answered(guest, &mut memory),
        Err(_) => None,
    }
}

/// Makes the calls on a device whose operation of this number fails. How many answer as they would where all works, or
/// none where one answers otherwise; none at all where no call can be made.
fn counted(alloc: Global, failing: u64) -> Option<Option<usize>> {
    let volume = opened(alloc, failing)?;
    match host(alloc, PLAIN, volume, Feeding::new(&[]), Taking::all(alloc)) {
        Ok(mut guest) => {
            let count = answered_in_page(alloc, &mut guest);
            drop(guest);
            Some(count)
        }
        Err(_) => None,
    }
}

#[test]
fn one_failing_operation_ends_the_volume(rt: HostRuntime) {
    let mut last: usize = 0;
    for failing in 1..1_000 {
        match counted(rt.alloc(), failing) {
            Some(Some(count)) => {
                // a later operation fails in the same call or in a later one
                assert!(rt; last <= count, "operation {failing}");
                last = count;
            }
            Some(None) => panic!(rt; "another answer"),
            None => assert!(rt; last == 0, "operation {failing}"),
        }
        if last == CALLS.len() {
            return;
        }
    }
    panic!(rt; "always failing");
}

//! Memories, by lists of what is done to them.

use super::{assert_row, fail};
use std::alloc::Global;
use std::process::Abort;
use wasm_store::Memory;

/// What is done to a memory, and what it answers.
#[derive(Clone, Copy)]
enum Deed<'a> {
    Write(u32, &'a [u8], bool),
    /// Copies to an address from another one this many bytes.
    Copy(u32, u32, u32, bool),
    /// Fills from an address on with a byte this many bytes.
    Fill(u32, u8, u32, bool),
    /// Grows by this many pages to a limit at most.
    Grow(u32, u32, Option<u32>),
    /// Looks at the bytes at an address.
    Holds(u32, &'a [u8], bool),
    Length(usize),
}

fn holds(memory: &mut Memory, address: u32, bytes: &[u8]) -> bool {
    match u32::try_from(bytes.len()) {
        Ok(len) => memory.slice(address, len) == Some(bytes),
        Err(_) => false,
    }
}

/// Does it, and says whether it is answered so.
fn is_answered(memory: &mut Memory, deed: Deed<'_>) -> bool {
    match deed {
        Deed::Write(address, bytes, want) => memory.write(address, bytes) == want,
        Deed::Copy(target, source, len, want) => memory.copy(target, source, len) == want,
        Deed::Fill(target, value, len, want) => memory.fill(target, value, len) == want,
        Deed::Grow(pages, limit, want) => memory.grow(pages, limit) == want,
        Deed::Holds(address, bytes, want) => holds(memory, address, bytes) == want,
        Deed::Length(want) => memory.len() == want,
    }
}

fn assert_answers(rt: &impl Abort, memory: &mut Memory, deeds: &[Deed<'_>]) {
    for (i, deed) in deeds.iter().enumerate() {
        assert_row(rt, i, is_answered(memory, *deed));
    }
}

/// Does the deeds in turn to a memory of this many pages.
fn assert_deeds(rt: &impl Abort, alloc: Global, pages: u32, deeds: &[Deed<'_>]) {
    match Memory::new(alloc, pages) {
        Ok(mut memory) => assert_answers(rt, &mut memory, deeds),
        Err(_) => fail(rt, "no memory"),
    }
}

#[test]
fn copies_and_fills(rt: HostRuntime) {
    assert_deeds(
        &rt,
        rt.alloc(),
        1,
        &[
            // as if all bytes were read first
            Deed::Write(0, &[1, 2, 3, 4], true),
            Deed::Copy(1, 0, 3, true),
            Deed::Holds(0, &[1, 1, 2, 3, 0], true),
            Deed::Copy(0, 1, 4, true),
            Deed::Holds(0, &[1, 2, 3, 0, 0], true),
            // past the end, also for no bytes
            Deed::Copy(65_534, 0, 3, false),
            Deed::Copy(0, 65_534, 3, false),
            Deed::Copy(65_536, 65_536, 0, true),
            Deed::Copy(65_537, 0, 0, false),
            Deed::Copy(0, 65_537, 0, false),
            Deed::Fill(65_534, 255, 3, false),
            Deed::Holds(65_534, &[0, 0], true),
            Deed::Fill(65_534, 255, 2, true),
            Deed::Holds(65_533, &[0, 0xff, 0xff], true),
            Deed::Fill(65_536, 255, 0, true),
            Deed::Fill(65_537, 255, 0, false),
        ],
    );
}

#[test]
fn memory_grows_to_its_limit(rt: HostRuntime) {
    assert_deeds(
        &rt,
        rt.alloc(),
        1,
        &[
            Deed::Write(65_533, b"abc", true),
            Deed::Grow(1, 2, Some(1)),
            Deed::Length(131_072),
            Deed::Holds(65_533, b"abc\0", true),
            Deed::Holds(131_064, &[0; 8], true),
            Deed::Grow(1, 2, None),
            Deed::Grow(0, 2, Some(2)),
            Deed::Grow(u32::MAX, u32::MAX, None),
            Deed::Length(131_072),
        ],
    );
}

//! Modules of one function, and where its branches lead.

use super::sections::PREAMBLE;
use super::{assert_row, fail, loaded};
use std::alloc::{AllocError, Global};
use std::process::Abort;
use wasm_branch::{Target, Targets, targets};
use wasm_valid::Valid;

/// The types [] -> [] and [] -> [i32].
const TYPES: &[u8] = b"\x01\x08\x02\x60\x00\x00\x60\x00\x01\x7F";

/// A module of one function of the type that has this index, with these instructions, under 100 bytes.
fn module(alloc: Global, type_index: u8, code: &[u8]) -> Result<Vec<u8>, AllocError> {
    let size = code.len().min(100) as u8 + 1;
    let functions = [0x03, 0x02, 0x01, type_index];
    let front = [0x0A, size + 2, 0x01, size, 0x00];
    [PREAMBLE, TYPES, &functions, &front, code].concat(alloc)
}

/// A position, how many values are kept, and the height.
type TargetParts = (usize, usize, usize);

/// Whether these are the targets, in order.
fn are_at(found: &[Target], want: &[TargetParts]) -> bool {
    for (i, parts) in want.iter().enumerate() {
        let Some(target) = found.get(i) else {
            return false;
        };
        if (target.position, target.kept, target.height) != *parts {
            return false;
        }
    }
    found.len() == want.len()
}

/// A function and an instruction in it, and where that leads.
type Row<'a> = (usize, usize, &'a [TargetParts]);

fn assert_targets(rt: &impl Abort, targets: &Targets, rows: &[Row<'_>]) {
    for (function, pc, want) in rows {
        assert_row(rt, *pc, are_at(targets.of(*function, *pc), want));
    }
}

fn assert_laid(rt: &impl Abort, alloc: Global, valid: &Valid<'_>, rows: &[Row<'_>]) {
    match targets(alloc, valid) {
        Ok(targets) => assert_targets(rt, &targets, rows),
        Err(_) => fail(rt, "no memory"),
    }
}

fn assert_module(rt: &impl Abort, alloc: Global, bytes: &[u8], rows: &[Row<'_>]) {
    match loaded(alloc, bytes) {
        Ok(valid) => {
            assert_laid(rt, alloc, &valid, rows);
            drop(valid);
        }
        Err(_) => fail(rt, "refused"),
    }
}

/// Asks where instructions of this code lead, in a function of the type that has this index.
fn assert_code(rt: &impl Abort, alloc: Global, type_index: u8, code: &[u8], rows: &[Row<'_>]) {
    match module(alloc, type_index, code) {
        Ok(bytes) => assert_module(rt, alloc, &bytes, rows),
        Err(_) => fail(rt, "no memory"),
    }
}

#[test]
fn branches_in_functions_without_results(rt: HostRuntime) {
    // loop, br 0, end, end: it is done again; there is no fifth instruction and no second function
    assert_code(
        &rt,
        rt.alloc(),
        0,
        b"\x03\x40\x0C\x00\x0B\x0B",
        &[(0, 1, &[(0, 0, 0)]), (0, 0, &[]), (0, 4, &[]), (1, 1, &[])],
    );
    // block i32, i32.const 7, br 0, end, drop, end
    assert_code(
        &rt,
        rt.alloc(),
        0,
        b"\x02\x7F\x41\x07\x0C\x00\x0B\x1A\x0B",
        &[(0, 2, &[(4, 1, 0)])],
    );
    // block, block, i32.const 0, br_table 0 1 2, end, end, end: the default is last
    assert_code(
        &rt,
        rt.alloc(),
        0,
        b"\x02\x40\x02\x40\x41\x00\x0E\x02\x00\x01\x02\x0B\x0B\x0B",
        &[(0, 3, &[(5, 0, 0), (6, 0, 0), (7, 0, 0)])],
    );
    // unreachable, drop, block, br 0, end, end
    assert_code(
        &rt,
        rt.alloc(),
        0,
        b"\x00\x1A\x02\x40\x0C\x00\x0B\x0B",
        &[(0, 3, &[(5, 0, 0)])],
    );
}

#[test]
fn branches_in_functions_with_a_result(rt: HostRuntime) {
    // i32.const 1, i32.const 2, block i32, i32.const 3, i32.const 4, br_if 0, end, return, end
    assert_code(
        &rt,
        rt.alloc(),
        1,
        b"\x41\x01\x41\x02\x02\x7F\x41\x03\x41\x04\x0D\x00\x0B\x0F\x0B",
        &[(0, 5, &[(7, 1, 2)]), (0, 7, &[(9, 1, 0)])],
    );
    // i32.const 9, i32.const 1, if i32, i32.const 5, else, i32.const 6, end, i32.add, end
    assert_code(
        &rt,
        rt.alloc(),
        1,
        b"\x41\x09\x41\x01\x04\x7F\x41\x05\x05\x41\x06\x0B\x6A\x0B",
        &[(0, 2, &[(5, 0, 1)]), (0, 4, &[(7, 1, 1)])],
    );
    // call 0, call 0, if, i32.const 3, br 1, end, end
    assert_code(
        &rt,
        rt.alloc(),
        1,
        b"\x10\x00\x10\x00\x04\x40\x41\x03\x0C\x01\x0B\x0B",
        &[(0, 2, &[(6, 0, 1)]), (0, 4, &[(7, 1, 0)])],
    );
}

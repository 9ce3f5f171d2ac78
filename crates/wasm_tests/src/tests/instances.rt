//! Instantiation, over one program with other sections.

ghost use Rattle.std.specs.Prelude.{Some};

use super::sections::{Section, spelled};
use super::{assert_row, loaded};
use std::alloc::Global;
use std::process::Abort;
use wasm_module::FuncType;
use wasm_store::{
    Answer, Errno, Host, HostCall, InstanceFault, Instantiated, Linked, Memory, instantiate,
};
use wasm_valid::Valid;

/// Links each import to one call, or none.
#[derive(Drop)]
struct Links {
    call: Option<HostCall>,
}

impl Host for Links {
    ghost links = { λ h _ _ _. h.call };

    ghost calls = { λ _ _ _ _ _ _ _ _. Unit {0} };

    fn link(&self, _module_name: &str, _name: &str, _func_type: &FuncType) -> Option<HostCall> {
        self.call
    }

    fn call(
        &mut self,
        _memory: &mut Memory,
        _used: u64,
        _call: HostCall,
        _arguments: &[u64],
    ) -> Answer {
        Answer::Value(Errno::SUCCESS)
    }
}

/// Imports function 0 and exports function 1 as `_start`, both of type [] -> []. It has a table of 2 elements, one page
/// of memory, and the constant globals 2, 3, -1 and, of 64 bits, -2. Function 1 starts.
static GUEST: [Section<'static>; 9] = [
    // types, imports, functions, tables and memories
    (1, b"\x01\x60\x00\x00"),
    (2, b"\x01\x01w\x01a\x00\x00"),
    (3, b"\x01\x00"),
    (4, b"\x01\x70\x00\x02"),
    (5, b"\x01\x00\x01"),
    // globals
    (
        6,
        b"\x04\x7F\x00\x41\x02\x0B\x7F\x00\x41\x03\x0B\x7F\x00\x41\x7F\x0B\x7E\x00\x42\x7E\x0B",
    ),
    // exports, the function that starts, and code
    (7, b"\x01\x06_start\x00\x01"),
    (8, b"\x01"),
    (10, b"\x01\x02\x00\x0B"),
];

/// What comes of a module: it is refused, it is instantiated, or its memory, table and globals are filled.
#[derive(Clone, Copy)]
enum Want {
    Fault(InstanceFault),
    Instance,
    Filled,
}

const ELEMENTS: Want = Want::Fault(InstanceFault::ElementOutOfBounds);

const DATA: Want = Want::Fault(InstanceFault::DataOutOfBounds);

const IMPORT: Want = Want::Fault(InstanceFault::Import);

const START: Want = Want::Fault(InstanceFault::NoStart);

const LIMIT: Want = Want::Fault(InstanceFault::PageLimit);

/// A section's id and content, and what comes of the module.
type Row<'a> = (u8, &'a [u8], Want);

fn has_first_values(made: &Instantiated) -> bool {
    made.memory.len() == 65_536
        && made.memory.load_u32(65_532, 0) == Some(0x6362_6100)
        && made.table.get(0) == Some(None)
        && made.table.get(1) == Some(Some(1))
        && made.globals.as_slice() == [2, 3, 4_294_967_295, 18_446_744_073_709_551_614].as_slice()
}

fn is_filled(made: &Instantiated) -> bool {
    has_first_values(made)
        && made.calls.as_slice() == [Linked::Host(HostCall::FdSync)].as_slice()
        && made.page_limit == 7
        && made.start == Some(1)
        && made.main == 1
}

fn is_instance(made: &Instantiated, want: Want) -> bool {
    match want {
        Want::Fault(_) => false,
        Want::Instance => true,
        Want::Filled => is_filled(made),
    }
}

fn is_fault(found: InstanceFault, want: Want) -> bool {
    match want {
        Want::Fault(fault) => found == fault,
        _ => false,
    }
}

/// The host's call of each import, if it has one, and the limit of pages.
type Given = (Option<HostCall>, u32);

fn is_instantiated(alloc: Global, valid: &Valid<'_>, given: Given, want: Want) -> bool {
    let (call, limit) = given;
    match instantiate(alloc, valid, limit, &Links { call }) {
        Ok(made) => {
            let as_wanted = is_instance(&made, want);
            drop(made);
            as_wanted
        }
        Err(fault) => is_fault(fault, want),
    }
}

/// Whether a module of these bytes is valid, and what comes of it is as wanted.
fn is_loaded(alloc: Global, bytes: &[u8], given: Given, want: Want) -> bool {
    match loaded(alloc, bytes) {
        Ok(valid) => {
            let as_wanted = is_instantiated(alloc, &valid, given, want);
            drop(valid);
            as_wanted
        }
        Err(_) => false,
    }
}

fn is_as_wanted(alloc: Global, others: &[Section<'_>], given: Given, row: &Row<'_>) -> bool {
    let (id, content, want) = *row;
    match spelled(alloc, &GUEST, others, (id, content)) {
        Ok(bytes) => is_loaded(alloc, &bytes, given, want),
        Err(_) => false,
    }
}

fn assert_rows(
    rt: &impl Abort,
    alloc: Global,
    others: &[Section<'_>],
    given: Given,
    rows: &[Row<'_>],
) {
    for (i, row) in rows.iter().enumerate() {
        assert_row(rt, i, is_as_wanted(alloc, others, given, row));
    }
}

#[test]
fn places_segments(rt: HostRuntime) {
    assert_rows(
        &rt,
        rt.alloc(),
        &[],
        (Some(HostCall::Nosys), 1),
        &[
            // three bytes at 65,533 and at 65,534
            (11, b"\x01\x00\x41\xFD\xFF\x03\x0B\x03abc", Want::Instance),
            (11, b"\x01\x00\x41\xFE\xFF\x03\x0B\x03abc", DATA),
            // none at 65,536 and at 65,537
            (11, b"\x01\x00\x41\x80\x80\x04\x0B\x00", Want::Instance),
            (11, b"\x01\x00\x41\x81\x80\x04\x0B\x00", DATA),
            // two functions at 0 and at 1
            (9, b"\x01\x00\x41\x00\x0B\x02\x00\x01", Want::Instance),
            (9, b"\x01\x00\x41\x01\x0B\x02\x00\x01", ELEMENTS),
            // none at the globals' 2, 3 and 2 ^ 32 - 1
            (9, b"\x01\x00\x23\x00\x0B\x00", Want::Instance),
            (9, b"\x01\x00\x23\x01\x0B\x00", ELEMENTS),
            (9, b"\x01\x00\x23\x02\x0B\x00", ELEMENTS),
        ],
    );
}

/// Elements and data that are both out of range.
static FAR: [Section<'static>; 2] = [
    (9, b"\x01\x00\x41\x02\x0B\x01\x00"),
    (11, b"\x01\x00\x41\x7F\x0B\x01h"),
];

#[test]
fn names_the_first_reason(rt: HostRuntime) {
    assert_rows(
        &rt,
        rt.alloc(),
        &FAR,
        (Some(HostCall::Nosys), 1),
        &[
            (0, b"", ELEMENTS),
            // two pages
            (5, b"\x01\x00\x02", LIMIT),
            // two pages under another name
            (7, b"\x01\x06_stars\x00\x01", START),
            // a global that is imported
            (2, b"\x02\x01w\x01a\x00\x00\x01w\x01g\x03\x7F\x00", IMPORT),
        ],
    );
    // the host has no such call, and no function is exported as `_start`
    assert_rows(&rt, rt.alloc(), &FAR, (None, 1), &[(7, b"", IMPORT)]);
}

/// One element, and three bytes of data.
static FILLED: [Section<'static>; 2] = [
    (9, b"\x01\x00\x41\x01\x0B\x01\x01"),
    (11, b"\x01\x00\x41\xFD\xFF\x03\x0B\x03abc"),
];

/// They stand there, under a limit of 7 pages.
#[test]
fn instances(rt: HostRuntime) {
    assert_rows(
        &rt,
        rt.alloc(),
        &FILLED,
        (Some(HostCall::FdSync), 7),
        &[(0, b"", Want::Filled)],
    );
}

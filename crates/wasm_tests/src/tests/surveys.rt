//! What is told of modules.

ghost use Rattle.std.specs.Prelude.{if◌then◌else◌, codes, bytes_eq, Some, None};
ghost use Rattle.wasm_store.specs.declared.call.HostCall.TheVariants as call;

use super::assert_row;
use super::frames::CALLERS;
use super::sections::PREAMBLE;
use crate::program::HELLO;
use sandbox_inspect::{Links, add_called, called, survey};
use std::alloc::Global;
use std::process::Abort;
use wasm_module::{FuncType, Profile};
use wasm_store::HostCall;

/// A host of two calls, one of which it answers with 52.
struct TwoCalls;

impl Links for TwoCalls {
    ghost links = { λ module_name name t. if bytes_eq name (codes "fd_write") then Some call.FdWrite else (if bytes_eq name (codes "sock_open") then Some call.Nosys else None) };

    fn link(&self, _module_name: &str, name: &str, _func_type: &FuncType) -> Option<HostCall> {
        match name {
            "fd_write" => Some(HostCall::FdWrite),
            "sock_open" => Some(HostCall::Nosys),
            _ => None,
        }
    }
}

/// The parts of a module's bytes, and what is told of them.
type Row<'a> = (&'a [&'a [u8]], &'a [u8]);

/// A byte in place of an instruction of `HELLO`, bytes after it, and what is told of them.
type Changed<'a> = (u8, &'a [u8], &'a [u8]);

/// A custom section `name`: the module is `m`, function 0 is `put`, and function 2 is `say hi`.
const NAMES: &[u8] = b"\x00\x19\x04name\x00\x02\x01m\x01\x0E\x02\x00\x03put\x02\x06say hi";

/// Whether this is told of these parts, one after another.
fn is_told(alloc: Global, parts: &[&[u8]], text: &[u8]) -> bool {
    let mut told = Vec::new(alloc);
    match parts.concat(alloc) {
        Ok(bytes) => {
            survey(alloc, &TwoCalls, &bytes, Profile::Integers, &mut told).is_ok()
                && told.as_slice() == text
        }
        Err(_) => false,
    }
}

/// Whether this is told of `HELLO` with this byte in place of the instruction at `DROP`, and these bytes after it.
fn is_told_of_changed(alloc: Global, opcode: u8, names: &[u8], text: &[u8]) -> bool {
    let front = HELLO.get(..DROP).unwrap_or(&[]);
    let back = HELLO.get(DROP + 1..).unwrap_or(&[]);
    is_told(alloc, &[front, &[opcode], back, names], text)
}

fn assert_told(rt: &impl Abort, alloc: Global, rows: &[Row<'_>]) {
    for (i, row) in rows.iter().enumerate() {
        assert_row(rt, i, is_told(alloc, row.0, row.1));
    }
}

fn assert_changed(rt: &impl Abort, alloc: Global, rows: &[Changed<'_>]) {
    for (i, row) in rows.iter().enumerate() {
        assert_row(rt, i, is_told_of_changed(alloc, row.0, row.1, row.2));
    }
}

#[test]
fn modules_that_load(rt: HostRuntime) {
    assert_told(
        &rt,
        rt.alloc(),
        &[
            (
                &[PREAMBLE],
                b"loads:yes\nmemory:none\ntable:none\nfunctions:0\nglobals:0\nstart:none\nentry:no\n",
            ),
            (
                &[&HELLO, NAMES],
                b"loads:yes\nimport:wasi_snapshot_preview1 fd_write served\nimport:wasi_snapshot_preview1 proc_exit refused\nexport:memory memory\nexport:_start function\nmemory:1\ntable:none\nfunctions:1\nglobals:0\nstart:none\nentry:yes\n",
            ),
            // names with a blank, a backslash, a letter of two bytes and a line break; `_start` has a result
            (
                &[
                    PREAMBLE,
                    b"\x01\x08\x02\x60\x00\x00\x60\x00\x01\x7F",
                    b"\x02\x1B\x02\x05a \\\xC3\xA4\x09sock_open\x00\x00\x01e\x01m\x02\x01\x01\x02",
                    b"\x03\x03\x02\x00\x01\x04\x05\x01\x70\x01\x02\x03\x06\x06\x01\x7F\x00\x41\x00\x0B",
                    b"\x07\x17\x04\x06_start\x00\x02\x01t\x01\x00\x01g\x03\x00\x02m\n\x02\x00",
                    b"\x08\x01\x01\x0A\x09\x02\x02\x00\x0B\x04\x00\x41\x00\x0B",
                ],
                b"loads:yes\nimport:a\\20\\5c\\c3\\a4 sock_open answered with 52\nimport:e m refused\nexport:_start function\nexport:t table\nexport:g global\nexport:m\\0a memory\nmemory:none\ntable:2 3\nfunctions:2\nglobals:1\nstart:1\nentry:no\n",
            ),
        ],
    );
}

/// The offset of an instruction in the one body of `HELLO`, the function 2.
const DROP: usize = 143;

/// A type without parameters, and two functions of it, the second of which has a byte without a meaning.
const TWO_FUNCTIONS: &[u8] =
    b"\x01\x04\x01\x60\x00\x00\x03\x03\x02\x00\x00\x0A\x08\x02\x02\x00\x0B\x03\x00\xFF\x0B";

#[test]
fn modules_that_are_refused(rt: HostRuntime) {
    assert_told(
        &rt,
        rt.alloc(),
        &[
            (
                &[],
                b"loads:no\nfault:1\ntext:the module ends too early\noffset:0\nfunction:\nname:\n",
            ),
            (
                &[PREAMBLE, b"\x01\x05\x01\x60\x01\x7D\x00", NAMES],
                b"loads:no\nfault:10\ntext:a type or an instruction of floating point\noffset:13\nfunction:\nname:\n",
            ),
            (
                &[PREAMBLE, TWO_FUNCTIONS, NAMES],
                b"loads:no\nfault:7\ntext:a byte in the module has no meaning where it stands\noffset:27\nfunction:1\nname:\n",
            ),
        ],
    );
}

#[test]
fn functions_are_named(rt: HostRuntime) {
    assert_changed(
        &rt,
        rt.alloc(),
        &[
            // `f32.add`, with its function's name, without one, and where the names are cut off
            (
                0x92,
                NAMES,
                b"loads:no\nfault:10\ntext:a type or an instruction of floating point\noffset:143\nfunction:2\nname:say\\20hi\n",
            ),
            (
                0x92,
                b"",
                b"loads:no\nfault:10\ntext:a type or an instruction of floating point\noffset:143\nfunction:2\nname:\n",
            ),
            (
                0x92,
                b"\x00\x08\x04name\x01\x7F\x01",
                b"loads:no\nfault:10\ntext:a type or an instruction of floating point\noffset:143\nfunction:2\nname:\n",
            ),
            // `select` without its operands: the module is decoded and not valid
            (
                0x1B,
                NAMES,
                b"loads:no\nfault:12\ntext:the module is not valid\noffset:143\nfunction:2\nname:say\\20hi\n",
            ),
        ],
    );
}

/// Whether this is printed of a function of these bytes.
fn is_called(alloc: Global, bytes: &[u8], index: u64, text: &[u8]) -> bool {
    let mut told = Vec::new(alloc);
    add_called(&mut told, bytes, index).is_ok() && told.as_slice() == text
}

#[test]
fn names_of_functions(rt: HostRuntime) {
    let rows: [(u64, &[u8], bool); 6] = [
        // from the section `name`, which names the imported function, too
        (0, b"ask", true),
        (1, b"divide", true),
        // neither named nor exported
        (2, b"function[2]", false),
        // exported alone
        (3, b"_start", true),
        (4, b"function[4]", false),
        (
            18_446_744_073_709_551_615,
            b"function[18446744073709551615]",
            false,
        ),
    ];
    for (i, (index, text, has_name)) in rows.iter().enumerate() {
        let is = is_called(rt.alloc(), CALLERS, *index, text)
            && called(CALLERS, *index).is_some() == *has_name;
        assert_row(&rt, i, is);
    }
}

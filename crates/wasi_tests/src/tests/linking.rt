//! Which imports link, and what a call without memory or arguments answers.

use super::guest::{Guest, PLAIN, fresh};
use super::streams::{Feeding, Taking};
use std::alloc::{AllocError, Global};
use std::process::Abort;
use wasm_module::{FuncType, Items, ValueType};
use wasm_store::{Answer, Errno, Host, HostCall, Memory};

/// A type by letters: `i` is i32 and `I` is i64.
fn types(alloc: Global, letters: &[u8]) -> Result<Items<ValueType>, AllocError> {
    let mut types = Vec::new(alloc);
    for letter in letters {
        types.push(match letter {
            b'I' => ValueType::I64,
            _ => ValueType::I32,
        })?;
    }
    Ok(Items::from_vec(types, 0))
}

/// The names of an import, its parameters and results, and what it links to.
type Import<'a> = (&'a str, &'a str, &'a [u8], &'a [u8], Option<HostCall>);

fn func_type(alloc: Global, params: &[u8], results: &[u8]) -> Result<FuncType, AllocError> {
    let params = types(alloc, params)?;
    let results = types(alloc, results)?;
    Ok(FuncType { params, results })
}

/// Whether an import links to what it should.
fn is_linked<H: Host>(alloc: Global, guest: &H, import: &Import<'_>) -> bool {
    let (module_name, name, params, results, want) = *import;
    match func_type(alloc, params, results) {
        Ok(func_type) => guest.link(module_name, name, &func_type) == want,
        Err(_) => false,
    }
}

fn assert_imports<H: Host>(rt: &impl Abort, alloc: Global, guest: &H, imports: &[Import<'_>]) {
    for (i, import) in imports.iter().enumerate() {
        assert!(rt; is_linked(alloc, guest, import), "row {i}");
    }
}

/// A host over a fresh volume, with the root as descriptor 3.
fn plain(rt: &impl Abort, alloc: Global) -> Guest<'static, 'static> {
    fresh(rt, alloc, PLAIN, Feeding::new(&[]), Taking::all(alloc))
}

fn assert_linked(rt: &impl Abort, alloc: Global, imports: &[Import<'_>]) {
    let guest = plain(rt, alloc);
    assert_imports(rt, alloc, &guest, imports);
    drop(guest);
}

/// The name of the module that has the calls.
const WASI: &str = "wasi_snapshot_preview1";

#[test]
fn calls_link_by_their_types(rt: HostRuntime) {
    assert_linked(
        &rt,
        rt.alloc(),
        &[
            (WASI, "fd_write", b"iiii", b"i", Some(HostCall::FdWrite)),
            (WASI, "fd_pread", b"iiiIi", b"i", Some(HostCall::FdPread)),
            (
                WASI,
                "fd_readdir",
                b"iiiIi",
                b"i",
                Some(HostCall::FdReaddir),
            ),
            (
                WASI,
                "path_open",
                b"iiiiiIIii",
                b"i",
                Some(HostCall::PathOpen),
            ),
            (WASI, "proc_exit", b"i", b"", Some(HostCall::ProcExit)),
            (WASI, "proc_exit", b"I", b"", None),
            (WASI, "fd_write", b"i", b"", None),
            (WASI, "fd_write", b"iiiii", b"i", None),
            ("wasi_unstable", "fd_write", b"iiii", b"i", None),
            // any other name
            (WASI, "sched_yield", b"", b"i", Some(HostCall::Nosys)),
            (WASI, "fd_writf", b"iI", b"i", Some(HostCall::Nosys)),
            (WASI, "fd_writf", b"iI", b"I", None),
        ],
    );
}

/// A call, its arguments, and its answer.
type Row<'a> = (HostCall, &'a [u64], Answer);

fn assert_answers<H: Host>(rt: &impl Abort, guest: &mut H, memory: &mut Memory, rows: &[Row<'_>]) {
    for (i, (call, arguments, want)) in rows.iter().enumerate() {
        assert!(rt; guest.call(memory, 1, *call, arguments) == *want, "row {i}");
    }
}

/// Makes the calls in turn without memory.
fn assert_without_memory<H: Host>(rt: &impl Abort, alloc: Global, guest: &mut H, rows: &[Row<'_>]) {
    let mut memory = Memory::new(alloc, 0).expect(rt, "no memory");
    assert_answers(rt, guest, &mut memory, rows);
    drop(memory);
}

fn assert_calls(rt: &impl Abort, alloc: Global, rows: &[Row<'_>]) {
    let mut guest = plain(rt, alloc);
    assert_without_memory(rt, alloc, &mut guest, rows);
    drop(guest);
}

#[test]
fn calls_need_no_memory_and_no_arguments(rt: HostRuntime) {
    assert_calls(
        &rt,
        rt.alloc(),
        &[
            (HostCall::FdRead, &[], Answer::Value(Errno(21))),
            (HostCall::FdWrite, &[1], Answer::Value(Errno(21))),
            (HostCall::FdTell, &[(1 << 32) + 1], Answer::Value(Errno(70))),
            (HostCall::ArgsGet, &[], Answer::Value(Errno(0))),
            (HostCall::Nosys, &[], Answer::Value(Errno(52))),
            (HostCall::ProcExit, &[(1 << 32) + 7], Answer::Exit(7)),
        ],
    );
}

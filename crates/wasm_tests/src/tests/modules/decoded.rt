//! What bytes are decoded to.

use crate::HELLO;
use crate::tests::assert_row;
use crate::tests::sections::{FUNCTION, PREAMBLE};
use std::alloc::Global;
use std::process::Abort;
use wasm_module::{
    Body, Export, ExportKind, FuncType, Import, Instruction, Limits, Module, decode, one_module,
};

fn has_lengths(found: &FuncType, params: usize, results: usize) -> bool {
    found.params.len() == params && found.results.len() == results
}

fn has_types(types: &[FuncType]) -> bool {
    match types {
        [write, exit, start] => {
            has_lengths(write, 4, 1) && has_lengths(exit, 1, 0) && has_lengths(start, 0, 0)
        }
        _ => false,
    }
}

fn is_export(found: &Export<'_>, name: &str, kind: ExportKind) -> bool {
    found.name.as_str() == name && found.kind == kind
}

fn has_exports(exports: &[Export<'_>]) -> bool {
    match exports {
        [memory, start] => {
            is_export(memory, "memory", ExportKind::Memory(0))
                && is_export(start, "_start", ExportKind::Function(2))
        }
        _ => false,
    }
}

fn is_program(module: &Module<'_>) -> bool {
    module.functions.as_slice() == [2].as_slice()
        && has_memory(module, Limits { min: 1, max: None })
        && has_types(module.types.as_slice())
        && has_exports(module.exports.as_slice())
        && has_imports(module.imports.as_slice())
}

fn is_from_wasi(found: &Import<'_>) -> bool {
    found.module_name.as_str() == "wasi_snapshot_preview1"
}

fn has_imports(imports: &[Import<'_>]) -> bool {
    match imports {
        [write, exit] => is_from_wasi(write) && is_from_wasi(exit),
        _ => false,
    }
}

const GREATEST: Limits = Limits {
    min: 0,
    max: Some(4_294_967_295),
};

fn has_memory(module: &Module<'_>, limits: Limits) -> bool {
    module.memories.as_slice() == [limits].as_slice()
}

/// Where a body stands, how many bytes and declarations of locals (each a count and a type) it has, where its instructions stand, and
/// how many there are.
fn layout(body: &Body<'_>) -> [usize; 5] {
    [
        body.bytes.offset() as usize,
        body.bytes.as_slice().len(),
        body.locals.len(),
        body.code.offset() as usize,
        body.code.len(),
    ]
}

fn has_code(module: &Module<'_>) -> bool {
    match module.bodies.as_slice() {
        [body] => layout(body) == [132, 17, 0, 133, 9] && calls_write(body.code.as_slice()),
        _ => false,
    }
}

fn calls_write(code: &[Instruction]) -> bool {
    matches!(
        code,
        [
            _,
            _,
            _,
            Instruction::I32Const(16),
            Instruction::Call(0),
            Instruction::Drop,
            ..
        ]
    )
}

fn has_data(module: &Module<'_>) -> bool {
    match module.data_segments.as_slice() {
        [data] => {
            data.offset.len() == 2
                && data.bytes.as_slice() == b"\x08\x00\x00\x00\x03\x00\x00\x00hi\n".as_slice()
        }
        _ => false,
    }
}

/// The code of the only body.
fn code_of<'m>(module: &'m Module<'_>) -> &'m [Instruction] {
    match module.bodies.as_slice() {
        [body] => body.code.as_slice(),
        _ => &[],
    }
}

fn has_constant(code: &[Instruction], value: u32) -> bool {
    match code {
        [Instruction::I32Const(found), ..] => *found == value,
        _ => false,
    }
}

fn is_branch(code: &[Instruction]) -> bool {
    match code {
        [Instruction::BrTable(table), Instruction::End] => {
            table.labels() == [5, 6].as_slice() && table.default_label() == 7
        }
        _ => false,
    }
}

/// What a module has to hold.
#[derive(Clone, Copy)]
enum Content {
    Program,
    Constant(u32),
    Memory(Limits),
    Branch,
}

fn holds(module: &Module<'_>, content: Content) -> bool {
    match content {
        Content::Program => is_program(module) && has_code(module) && has_data(module),
        Content::Constant(value) => has_constant(code_of(module), value),
        Content::Memory(limits) => has_memory(module, limits),
        Content::Branch => is_branch(code_of(module)),
    }
}

fn is_decoded(alloc: Global, bytes: &[u8], content: Content) -> bool {
    match decode(alloc, bytes) {
        Ok(module) => {
            let as_wanted = holds(&module, content);
            drop(module);
            as_wanted
        }
        Err(_) => false,
    }
}

/// Parts of a module's bytes, and what it has to hold.
type Row<'a> = (&'a [&'a [u8]], Content);

fn is_as_wanted(alloc: Global, row: &Row<'_>) -> bool {
    match row.0.concat(alloc) {
        Ok(bytes) => is_decoded(alloc, &bytes, row.1),
        Err(_) => false,
    }
}

fn assert_decoded(rt: &impl Abort, alloc: Global, rows: &[Row<'_>]) {
    for (i, row) in rows.iter().enumerate() {
        assert_row(rt, i, is_as_wanted(alloc, row));
    }
}

#[test]
fn contents(rt: HostRuntime) {
    assert_decoded(
        &rt,
        rt.alloc(),
        &[
            (&[&HELLO], Content::Program),
            // -1, modulo 2 ^ 32, and 0 at its longest
            (
                &[
                    FUNCTION,
                    b"\x0A\x0B\x01\x09\x00\x41\xFF\xFF\xFF\xFF\x7F\x1A\x0B",
                ],
                Content::Constant(4_294_967_295),
            ),
            (
                &[
                    FUNCTION,
                    b"\x0A\x0B\x01\x09\x00\x41\x80\x80\x80\x80\x00\x1A\x0B",
                ],
                Content::Constant(0),
            ),
            // a memory of no page at least, and of 4,294,967,295 at most
            (
                &[PREAMBLE, b"\x05\x08\x01\x01\x00\xFF\xFF\xFF\xFF\x0F"],
                Content::Memory(GREATEST),
            ),
            // br_table 5 6 7
            (
                &[FUNCTION, b"\x0A\x09\x01\x07\x00\x0E\x02\x05\x06\x07\x0B"],
                Content::Branch,
            ),
        ],
    );
    one_module();
}

//! Which fault a module's bytes are refused with, and where.

mod decoded;
mod made;
mod opcodes;
mod refused;
mod rules;
mod sizes;
mod typed;

use super::assert_row;
use std::alloc::Global;
use std::process::Abort;
use wasm_module::{LoadFault, decode};

/// Bytes, and what they are refused with.
type Row<'a> = (&'a [u8], Option<LoadFault>);

/// Why these bytes, one part after another, aren't decoded, if they aren't.
fn fault_of(alloc: Global, parts: &[&[u8]]) -> Option<LoadFault> {
    match parts.concat(alloc) {
        Ok(bytes) => decode(alloc, &bytes).err(),
        Err(_) => Some(LoadFault::Memory),
    }
}

/// Decodes each row after these bytes.
fn assert_rows(rt: &impl Abort, alloc: Global, front: &[u8], rows: &[Row<'_>]) {
    for (i, (tail, want)) in rows.iter().enumerate() {
        assert_row(rt, i, fault_of(alloc, &[front, tail]) == *want);
    }
}

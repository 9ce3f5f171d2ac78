//! The profile's limit on parameters and locals.

ghost use Rattle.std.specs.List.{list_all, zip};
ghost use Rattle.std.specs.Prelude.{◌≡◌, ◌+◌, length, nat_le, slice_get};
ghost use Rattle.wasm_syntax.specs.Module.{param_count, local_count};
ghost use Rattle.wasm_module.specs.internal.ModuleReading.{is_few, fits_profile};

use crate::cursor::Cursor;
use wasm_syntax::fault::LoadFault;
use wasm_syntax::items::Items;
use wasm_syntax::module::{Body, FuncType, Locals, Module};

/// How many parameters and locals a function may have together.
const MOST_LOCALS: u64 = 50_000;

fn params(types: &[FuncType], index: u32) -> u64
    ensures { result ≡ param_count (slice_get types.now index) }
{
    match types.get(index as usize) {
        Some(function) => function.params.len() as u64,
        None => 0,
    }
}

/// Whether these parameters and the locals are few enough.
fn few(params: u64, locals: &[Locals]) -> bool
    ensures { result ≡ nat_le (params + local_count locals.now) 50000 }
{
    let mut count = params;
    for entry in locals {
        if count > MOST_LOCALS {
            return false;
        }
        count += u64::from(entry.count);
    }
    count <= MOST_LOCALS
}

fn is_within(types: &[FuncType], index: u32, body: &Body<'_>) -> bool
    ensures { result ≡ is_few types.now index body.now }
{
    few(params(types, index), body.locals.as_slice())
}

/// Whether each function has few enough parameters and locals.
#[tactic(auto, unfolding(crate::specs::internal::ModuleReading::fits_profile))]
pub fn fits_profile(types: &[FuncType], functions: &[u32], bodies: &[Body<'_>]) -> bool
    ensures { result ≡ fits_profile types.now functions.now bodies.now }
{
    functions
        .iter()
        .zip(bodies)
        .all(|(index, body)| is_within(types, *index, body))
}

/// Where the type index of the function at this position stands.
fn index_offset(input: &[u8], functions: &Items<u32>, position: usize) -> Result<u32, LoadFault> {
    let mut cursor = Cursor::at(input, functions.offset());
    // The count, and the indices before it.
    for _ in 0..=position {
        cursor.u32()?;
    }
    Ok(cursor.offset())
}

/// Where the count of the first group stands with which there are too many locals.
fn group_offset(body: &Body<'_>, params: u64) -> Result<u32, LoadFault> {
    let mut cursor = Cursor::of(&body.bytes);
    cursor.u32()?;
    let mut count = params;
    for group in body.locals.as_slice() {
        count = count.saturating_add(u64::from(group.count));
        if count > MOST_LOCALS {
            break;
        }
        cursor.u32()?;
        cursor.byte()?;
    }
    Ok(cursor.offset())
}

/// Where the number stands with which a function has too many parameters and locals.
pub fn excess(input: &[u8], module: &Module<'_>) -> Result<u32, LoadFault> {
    let types = module.types.as_slice();
    let functions = module.functions.as_slice();
    let bodies = module.bodies.as_slice();
    for position in 0..functions.len() {
        let (Some(index), Some(body)) = (functions.get(position), bodies.get(position)) else {
            break;
        };
        let params = params(types, *index);
        if params > MOST_LOCALS {
            return index_offset(input, &module.functions, position);
        }
        if !few(params, body.locals.as_slice()) {
            return group_offset(body, params);
        }
    }
    Ok(module.functions.offset())
}

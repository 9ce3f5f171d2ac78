//! Where functions are at work, in words.

ghost use Rattle.std.specs.Prelude.{◌≡◌, ◌<◌, ◌++◌, List, ℕ, OnOk, IfSome, IsSome, Some, length, slice_get};
ghost use Rattle.wasm_syntax.specs.declared.module.Body.{Body as BodyValue};
ghost use Rattle.wasm_syntax.specs.Module.{SpellsWith};
ghost use Rattle.wasm_syntax.specs.declared.profile.Profile.{Profile as ProfileValue};
ghost use Rattle.sandbox_inspect.specs.Places.{IsInstructionAt, called};
ghost use Rattle.sandbox_inspect.specs.Sites.{IsSite, function_of, offset_text, site_text};

use crate::naming::add_called;
use crate::places::instruction_offset;
use std::io;
use std::io::Write;
use wasm_module::Module;

/// Where the instruction of this index of the module's own function begins, in bytes from the first of the module. There is
/// such a place wherever these bytes spell the module by some profile and the function is there.
fn own_offset(bytes: &[u8], module: &Module<'_>, own: usize, index: usize) -> Option<usize>
    ensures stands { IfSome result (λ offset. (body : BodyValue)
        × (slice_get «module».now.bodies own ≡ Some body)
        × IsInstructionAt bytes.now own body index offset) }
    ensures told { (p : ProfileValue) → SpellsWith p bytes.now «module».now
        → own < length «module».now.bodies → IsSome result }
{
    let body = module.bodies.as_slice().get(own)?;
    instruction_offset(bytes, own, body, index)
}

/// Adds an offset, or `-` where there is none.
fn add_offset(text: &mut Vec<u8>, offset: Option<usize>) -> io::Result<()>
    ensures { OnOk result (text.new.items ≡ text.old.items ++ offset_text offset) }
{
    match offset {
        Some(offset) => write!(text, "0x{offset:x}"),
        None => write!(text, "-"),
    }
}

/// Adds this offset, and which of the module's own functions it lies in: its index, the imported ones counted first, and what
/// it is called.
fn add_offset_and_function(
    text: &mut Vec<u8>,
    bytes: &[u8],
    module: &Module<'_>,
    own: usize,
    offset: Option<usize>,
) -> io::Result<()>
    ensures { OnOk result (text.new.items ≡ text.old.items ++ site_text offset
        (function_of «module».now own) (called bytes.now (function_of «module».now own))) }
{
    let imported = module.imports.as_slice().len() as u64;
    let function = imported.saturating_add(own as u64);
    add_offset(text, offset)?;
    write!(text, " {function} ")?;
    add_called(text, bytes, function)
}

/// Adds where a function of the module's own is at work: the offset of its instruction of this index in the module's bytes, its
/// index, the imported ones counted first, and what it is called. The bytes are those of the module. No line end stands in it.
pub fn add_site(
    text: &mut Vec<u8>,
    bytes: &[u8],
    module: &Module<'_>,
    own: usize,
    index: usize,
) -> io::Result<()>
    ensures { OnOk result ((site : List ℕ) × IsSite bytes.now «module».now own index site
        × (text.new.items ≡ text.old.items ++ site)) }
{
    let offset = own_offset(bytes, module, own, index);
    add_offset_and_function(text, bytes, module, own, offset)
}

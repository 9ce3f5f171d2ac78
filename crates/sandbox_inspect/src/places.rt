//! Where functions stand in a module's bytes, and what they are called.

ghost use Rattle.std.specs.Prelude.{◌≡◌, List, ℕ, IfOk, IfSome, IfNone, Some, length, slice_get};
ghost use Rattle.std.specs.Option.{option_map};
ghost use Rattle.wasm_syntax.specs.declared.module.Body.{Body as BodyValue};
ghost use Rattle.wasm_syntax.specs.declared.module.Module.{Module as ModuleValue};
ghost use Rattle.wasm_syntax.specs.Module.{SpellsWith};
ghost use Rattle.wasm_syntax.specs.declared.profile.Profile.{Profile as ProfileValue};
ghost use Rattle.wasm_valid.specs.Offsets.{StandsBehind};
ghost use Rattle.sandbox_inspect.specs.Places.{function_name, holding_entry, IsFunctionAt, IsInstructionAt, name_among, nth_entry, own_entry, own_function_at, up_to_imports};
ghost use Rattle.sandbox_inspect.specs.internal.Counting.{IsCountedAfter};

use crate::sections::{Wanted, find, module_section, number, sized};
use std::alloc::Global;
use std::io;
use std::io::{Error, ErrorKind};
use wasm_module::{Body, LoadFault, Profile, decode_with};
use wasm_valid::{imported_functions, instruction_place};

/// The entry of the code section that holds a byte, with so many bytes from it to the entries' end.
fn holding_entry(count: u32, left: usize, entries: &[u8]) -> Option<u32>
    ensures { result ≡ holding_entry count 0 left entries.now }
{
    let mut rest = entries;
    for index in 0..count {
        let (_, after) = sized(rest)?;
        if after.len() < left && left <= rest.len() {
            return Some(index);
        }
        rest = after;
    }
    None
}

/// The module's own function that holds the byte at this offset.
fn own_function_at(bytes: &[u8], offset: u32) -> Option<u32>
    ensures { result ≡ own_function_at bytes.now offset }
{
    let section = module_section(Wanted::Code, bytes)?;
    let (count, entries) = number(section.content)?;
    let end = bytes.len().saturating_sub(section.rest.len());
    holding_entry(count, end.saturating_sub(offset as usize), entries)
}

/// The content of the entry of the code section after so many others, and the bytes behind it.
fn nth_entry(before: usize, entries: &[u8]) -> Option<(&[u8], &[u8])>
    ensures { option_map (λ e. (e.0.now, e.1.now)) result ≡ nth_entry before entries.now }
{
    let mut rest = entries;
    for _ in 0..before {
        let (_, after) = sized(rest)?;
        rest = after;
    }
    sized(rest)
}

/// The content of the entry of the module's own function, and how many bytes of the module stand behind it.
pub(crate) fn own_entry(bytes: &[u8], own: usize) -> Option<(&[u8], usize)>
    ensures { option_map {U = List ℕ × ℕ} (λ e. (e.0.now, e.1)) result ≡ option_map {U = List ℕ × ℕ}
        (λ e. (e.0, length e.1)) (own_entry bytes.now own) }
{
    let section = module_section(Wanted::Code, bytes)?;
    let (count, entries) = number(section.content)?;
    if own >= count as usize {
        return None;
    }
    let (content, after) = nth_entry(own, entries)?;
    Some((content, after.len() + section.rest.len()))
}

/// Where the instruction of this index of a function's body begins, in bytes from the first of the module. The function is
/// the module's own of this index, counted from 0; none where its entry in the code section isn't this body.
pub fn instruction_offset(bytes: &[u8], own: usize, body: &Body<'_>, index: usize) -> Option<usize>
    ensures found { IfSome result (λ offset. IsInstructionAt bytes.now own body.now index offset) }
    ensures missing { IfNone result ((behind : List ℕ)
        → own_entry bytes.now own ≡ Some (body.now.bytes, behind) → ⊥) }
{
    let (content, behind) = own_entry(bytes, own)?;
    if content != body.bytes.as_slice() {
        return None;
    }
    let front = bytes.len() - behind - content.len();
    Some(front.saturating_add(instruction_place(body, index)))
}

/// A law: in the bytes of a module the body of each of its own functions stands in the entry of that function, and each of
/// its instructions behind the locals and the instructions before it.
pub fn instructions_stand_in_the_bytes()
    ensures { (p : ProfileValue) (bytes : List ℕ) (m : ModuleValue) (own : ℕ) (b : BodyValue)
        (index : ℕ) → SpellsWith p bytes m → slice_get m.bodies own ≡ Some b → (behind : List ℕ)
        × (own_entry bytes own ≡ Some (b.bytes, behind)) × (before : List ℕ)
        × StandsBehind p b index before }
{}

/// The bytes up to the end of the imports.
fn up_to_imports(bytes: &[u8]) -> &[u8]
    ensures { result.now ≡ up_to_imports bytes.now }
{
    match module_section(Wanted::AfterImports, bytes) {
        Some(section) => &bytes[..bytes.len().saturating_sub(section.from.len())],
        None => bytes,
    }
}

/// The index of a module's own function, where the bytes, which end with the imports, are read as a module: the imported
/// functions are counted first.
fn counted_after_imports(
    alloc: Global,
    bytes: &[u8],
    profile: Profile,
    own: u32,
) -> io::Result<Option<u64>>
    ensures { IfOk result (IsCountedAfter profile bytes.now own) }
{
    match decode_with(alloc, bytes, profile) {
        Ok(module) => {
            let imported = imported_functions(alloc, module.imports.as_slice());
            drop(module); // by the call, since each end of the scope spells it out
            Ok(Some(imported?.len() as u64 + u64::from(own)))
        }
        Err(fault) => match fault {
            LoadFault::Memory => Err(Error::from(ErrorKind::OutOfMemory)),
            _ => Ok(None),
        },
    }
}

/// The function that holds the byte at this offset, the imported ones counted first; none where there is none, or its
/// imports can't be read.
pub(crate) fn function_at(
    alloc: Global,
    bytes: &[u8],
    profile: Profile,
    offset: u32,
) -> io::Result<Option<u64>>
    ensures { IfOk result (IsFunctionAt profile bytes.now offset) }
{
    match own_function_at(bytes, offset) {
        Some(own) => counted_after_imports(alloc, up_to_imports(bytes), profile, own),
        None => Ok(None),
    }
}

/// The first name of this index, among so many pairs of an index and a name.
fn name_among(count: u32, index: u64, pairs: &[u8]) -> Option<&[u8]>
    ensures { option_map (λ name. name.now) result ≡ name_among count index pairs.now }
{
    let mut rest = pairs;
    for _ in 0..count {
        let (found, sized_name) = number(rest)?;
        let (name, after) = sized(sized_name)?;
        if u64::from(found) == index {
            return Some(name);
        }
        rest = after;
    }
    None
}

/// A function's name in the custom section `name`.
pub fn function_name(bytes: &[u8], index: u64) -> Option<&[u8]>
    ensures { option_map (λ name. name.now) result ≡ function_name bytes.now index }
{
    let section = module_section(Wanted::Names, bytes)?;
    let (_, subsections) = sized(section.content)?;
    let names = find(Wanted::FunctionNames, subsections.len(), subsections)?;
    let (count, pairs) = number(names.content)?;
    name_among(count, index, pairs)
}

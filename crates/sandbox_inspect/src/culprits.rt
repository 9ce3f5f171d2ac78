//! What of a module is to blame where it is refused, in words.

ghost use Rattle.std.specs.Prelude.{◌≡◌, ◌++◌, [], ℕ, Option, IfOk, OnOk, is_some};
ghost use Rattle.std.specs.Option.{option_copied, option_map_or};
ghost use Rattle.sandbox_inspect.specs.Culprits.{function_text, import_name_text, is_linked, refused_import};
ghost use Rattle.sandbox_inspect.specs.Places.{IsFunctionAt};

use crate::links::Links;
use crate::places::{function_at, function_name};
use crate::words::add_name;
use std::alloc::Global;
use std::io;
use std::io::Write;
use wasm_module::{FuncType, Import, ImportKind, Module, Profile};

/// Adds a function by its index and its name, where it has one.
fn add_function(text: &mut Vec<u8>, bytes: &[u8], index: u64) -> io::Result<()>
    ensures { OnOk result (text.new.items ≡ text.old.items ++ function_text bytes.now index) }
{
    write!(text, "function {index}")?;
    match function_name(bytes, index) {
        Some(name) => {
            text.write_all(b" ")?;
            add_name(text, name)
        }
        None => Ok(()),
    }
}

/// Adds the function that the byte at this offset lies in, as `function 31 fmt_fp`. Tells whether there is one.
pub fn add_function_at(
    alloc: Global,
    text: &mut Vec<u8>,
    bytes: &[u8],
    profile: Profile,
    offset: u32,
) -> io::Result<bool>
    ensures { IfOk result (λ found. (f : Option ℕ) × IsFunctionAt profile bytes.now offset f
        × (found ≡ is_some f) × (text.new.items ≡ text.old.items ++ option_map_or
        (function_text bytes.now) f [])) }
{
    match function_at(alloc, bytes, profile, offset)? {
        Some(index) => {
            add_function(text, bytes, index)?;
            Ok(true)
        }
        None => Ok(false),
    }
}

/// Whether a host links an import.
fn is_linked<L: Links>(links: &L, types: &[FuncType], import: &Import<'_>) -> bool
    ensures { result ≡ is_linked L.links types.now import.now import.now.kind }
{
    let ImportKind::Function(index) = import.kind else {
        return false;
    };
    match types.get(index as usize) {
        Some(func_type) => {
            let (module_name, name) = (import.module_name.as_str(), import.name.as_str());
            links.link(module_name, name, func_type).is_some()
        }
        None => false,
    }
}

/// The first import that is refused.
fn refused_import<'a, 'b, L: Links>(
    links: &L,
    types: &[FuncType],
    imports: &'b [Import<'a>],
) -> Option<&'b Import<'a>>
    ensures { option_copied result ≡ refused_import L.links types.now imports.now }
{
    imports
        .iter()
        .find(|import| !is_linked(links, types, import))
}

/// Adds an import by its two names.
fn add_import_name(text: &mut Vec<u8>, import: &Import<'_>) -> io::Result<()>
    ensures { OnOk result (text.new.items ≡ text.old.items ++ import_name_text import.now) }
{
    text.write_all(b"import ")?;
    add_name(text, import.module_name.as_str().as_bytes())?;
    text.write_all(b" ")?;
    add_name(text, import.name.as_str().as_bytes())
}

/// Adds the first import of a module that is refused, as `import env resize`: it is no function, or nothing that the host links.
/// Tells whether there is one.
pub fn add_refused_import<L: Links>(
    text: &mut Vec<u8>,
    links: &L,
    module: &Module<'_>,
) -> io::Result<bool>
    ensures { IfOk result (λ found. let refused = refused_import L.links «module».now.types
        «module».now.imports in (found ≡ is_some refused)
        × (text.new.items ≡ text.old.items ++ option_map_or import_name_text refused [])) }
{
    match refused_import(links, module.types.as_slice(), module.imports.as_slice()) {
        Some(import) => {
            add_import_name(text, import)?;
            Ok(true)
        }
        None => Ok(false),
    }
}

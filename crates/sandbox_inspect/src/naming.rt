//! What functions are called.

ghost use Rattle.std.specs.Prelude.{◌≡◌, ◌++◌, OnOk};
ghost use Rattle.std.specs.Option.{option_map};
ghost use Rattle.sandbox_inspect.specs.Places.{called, exported_among, exported_name, exported_of, exports_function, named};
ghost use Rattle.sandbox_inspect.specs.Words.{called_text};
ghost use Rattle.sandbox_inspect.specs.internal.Views.{found_export};

use crate::places::function_name;
use crate::sections::{Wanted, module_section, number, sized};
use crate::words::add_name;
use std::io;
use std::io::Write;

/// An export: its name, its kind, its index, and the bytes after it.
#[derive(Clone, Copy)]
pub(crate) struct Exported<'a> {
    pub name: &'a [u8],
    pub kind: u8,
    pub index: u32,
    pub rest: &'a [u8],
}

/// The export that the bytes begin with.
fn first_export(bytes: &[u8]) -> Option<Exported<'_>>
    ensures { option_map found_export result ≡ exported_of bytes.now }
{
    let (name, kind_on) = sized(bytes)?;
    let (kind, index_on) = kind_on.split_first()?;
    let (index, rest) = number(index_on)?;
    Some(Exported {
        name,
        kind: *kind,
        index,
        rest,
    })
}

/// Whether it is an export of the function of this index.
fn exports_function(index: u64, export: &Exported) -> bool
    ensures { result ≡ exports_function index (found_export export.now) }
{
    export.kind == 0 && u64::from(export.index) == index
}

/// The name of the first export of this function, among so many.
fn exported_among(count: u32, index: u64, exports: &[u8]) -> Option<&[u8]>
    ensures { option_map (λ name. name.now) result ≡ exported_among count index exports.now }
{
    let mut rest = exports;
    for _ in 0..count {
        let export = first_export(rest)?;
        if exports_function(index, &export) {
            return Some(export.name);
        }
        rest = export.rest;
    }
    None
}

/// The name that a function is exported by first.
fn exported_name(bytes: &[u8], index: u64) -> Option<&[u8]>
    ensures { option_map (λ name. name.now) result ≡ exported_name bytes.now index }
{
    let section = module_section(Wanted::Exports, bytes)?;
    let (count, exports) = number(section.content)?;
    exported_among(count, index, exports)
}

/// A name, but for an empty one.
fn named(name: Option<&[u8]>) -> Option<&[u8]>
    ensures { option_map (λ name. name.now) result ≡ named
        (option_map (λ name. name.now) name.entry) }
{
    match name {
        Some(name) if !name.is_empty() => Some(name),
        _ => None,
    }
}

/// What the function of this index is called in a module's bytes, the imported ones counted first: its name in the custom section
/// `name`, or else the name that it is exported by first. An empty name is none. Bytes that spell no module have names, too.
pub fn called(bytes: &[u8], index: u64) -> Option<&[u8]>
    ensures { option_map (λ name. name.now) result ≡ called bytes.now index }
{
    match named(function_name(bytes, index)) {
        Some(name) => Some(name),
        None => named(exported_name(bytes, index)),
    }
}

/// Adds what a function is called, without blanks and line breaks, or `function[3]` where it has no name.
pub fn add_called(text: &mut Vec<u8>, bytes: &[u8], index: u64) -> io::Result<()>
    ensures { OnOk result (text.new.items ≡ text.old.items ++ called_text index
        (called bytes.now index)) }
{
    match called(bytes, index) {
        Some(name) => add_name(text, name),
        None => write!(text, "function[{index}]"),
    }
}

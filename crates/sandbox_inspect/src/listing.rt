//! What is told of a valid module.

ghost use Rattle.std.specs.Prelude.{◌≡◌, ◌++◌, OnOk, Some};
ghost use Rattle.std.specs.List.{flat_map, list_any};
ghost use Rattle.sandbox_inspect.specs.Survey.{answer_text, call_text, counts_text, entry_text, export_text, import_text, is_bare, is_bare_at, is_entry, kind_text, limits_text, link_text, parts_text, sizes_text, survey_of};

use crate::functions::functions_of;
use crate::links::Links;
use crate::words::{NumberOrNone, add_name};
use std::alloc::Global;
use std::io::Write;
use std::{fmt, io};
use wasm_module::{Export, ExportKind, FuncType, Import, ImportKind, Limits, Module};
use wasm_store::HostCall;

/// What a guest gets of a call.
fn call_text(call: HostCall) -> &'static str
    ensures { result.now ≡ call_text call }
{
    match call {
        HostCall::Nosys => "answered with 52",
        _ => "served",
    }
}

fn link_text(call: Option<HostCall>) -> &'static str
    ensures { result.now ≡ link_text call }
{
    match call {
        Some(call) => call_text(call),
        None => "refused",
    }
}

/// What becomes of an import.
fn answer_text<L: Links>(links: &L, types: &[FuncType], import: &Import<'_>) -> &'static str
    ensures { result.now ≡ answer_text L.links types.now import.now import.now.kind }
{
    let ImportKind::Function(index) = import.kind else {
        return "refused";
    };
    match types.get(index as usize) {
        Some(func_type) => {
            let (module_name, name) = (import.module_name.as_str(), import.name.as_str());
            link_text(links.link(module_name, name, func_type))
        }
        None => "refused",
    }
}

fn add_import<L: Links>(
    text: &mut Vec<u8>,
    links: &L,
    types: &[FuncType],
    import: &Import<'_>,
) -> io::Result<()>
    ensures { OnOk result (text.new.items ≡ text.old.items ++ import_text L.links types.now
        import.now) }
{
    text.write_all(b"import:")?;
    add_name(text, import.module_name.as_str().as_bytes())?;
    text.write_all(b" ")?;
    add_name(text, import.name.as_str().as_bytes())?;
    write!(text, " {}\n", answer_text(links, types, import))
}

fn add_imports<L: Links>(
    text: &mut Vec<u8>,
    links: &L,
    types: &[FuncType],
    imports: &[Import<'_>],
) -> io::Result<()>
    ensures { OnOk result (text.new.items ≡ text.old.items ++ flat_map
        (import_text L.links types.now) imports.now) }
{
    for import in imports {
        add_import(text, links, types, import)?;
    }
    Ok(())
}

fn kind_text(kind: ExportKind) -> &'static str
    ensures { result.now ≡ kind_text kind }
{
    match kind {
        ExportKind::Function(_) => "function",
        ExportKind::Table(_) => "table",
        ExportKind::Memory(_) => "memory",
        ExportKind::Global(_) => "global",
    }
}

fn add_export(text: &mut Vec<u8>, export: &Export<'_>) -> io::Result<()>
    ensures { OnOk result (text.new.items ≡ text.old.items ++ export_text export.now) }
{
    text.write_all(b"export:")?;
    add_name(text, export.name.as_str().as_bytes())?;
    write!(text, " {}\n", kind_text(export.kind))
}

fn add_exports(text: &mut Vec<u8>, exports: &[Export<'_>]) -> io::Result<()>
    ensures { OnOk result (text.new.items ≡ text.old.items ++ flat_map export_text exports.now) }
{
    for export in exports {
        add_export(text, export)?;
    }
    Ok(())
}

/// How large a memory or a table is and may get.
#[derive(Clone, Copy)]
struct LimitText<'a>(&'a [Limits]);

impl<'a> fmt::Display for LimitText<'a> {
    ghost output = { λ s. Some (limits_text s.0.now) };

    fn fmt<W: fmt::Write>(&self, f: &mut fmt::Formatter<W>) -> fmt::Result {
        match self.0 {
            [] => write!(f, "none"),
            [limits, ..] => match limits.max {
                Some(max) => write!(f, "{} {}", limits.min, max),
                None => write!(f, "{}", limits.min),
            },
        }
    }
}

/// Whether the type has neither parameters nor results.
fn is_bare(func_type: &FuncType) -> bool
    ensures { result ≡ is_bare func_type.now }
{
    func_type.params.is_empty() && func_type.results.is_empty()
}

/// Whether the function of this index, whose types are these, has that type.
fn is_bare_at(types: &[FuncType], functions: &[u32], index: u32) -> bool
    ensures { result ≡ is_bare_at types.now functions.now index }
{
    match functions.get(index as usize) {
        Some(type_index) => match types.get(*type_index as usize) {
            Some(func_type) => is_bare(func_type),
            None => false,
        },
        None => false,
    }
}

/// Whether a run can begin with this export.
fn is_entry(types: &[FuncType], functions: &[u32], export: &Export<'_>) -> bool
    ensures { result ≡ is_entry types.now functions.now export.now }
{
    match export.kind {
        ExportKind::Function(index) => {
            export.name.as_str() == "_start" && is_bare_at(types, functions, index)
        }
        _ => false,
    }
}

/// Whether a run can begin with one of them.
fn has_entry(types: &[FuncType], functions: &[u32], exports: &[Export<'_>]) -> bool
    ensures { result ≡ list_any (is_entry types.now functions.now) exports.now }
{
    exports
        .iter()
        .any(|export| is_entry(types, functions, export))
}

fn entry_text(has_entry: bool) -> &'static str
    ensures { result.now ≡ entry_text has_entry }
{
    if has_entry { "yes" } else { "no" }
}

fn add_sizes(text: &mut Vec<u8>, memories: &[Limits], tables: &[Limits]) -> io::Result<()>
    ensures { OnOk result (text.new.items ≡ text.old.items ++ sizes_text memories.now tables.now) }
{
    write!(
        text,
        "memory:{}\ntable:{}\n",
        LimitText(memories),
        LimitText(tables)
    )
}

fn add_counts(
    text: &mut Vec<u8>,
    functions: usize,
    globals: usize,
    start: Option<u32>,
    entry: &str,
) -> io::Result<()>
    ensures { OnOk result (text.new.items ≡ text.old.items ++ counts_text functions globals start
        entry.now) }
{
    write!(
        text,
        "functions:{}\nglobals:{}\nstart:{}\nentry:{}\n",
        functions,
        globals,
        NumberOrNone(start),
        entry
    )
}

fn add_parts(alloc: Global, text: &mut Vec<u8>, module: &Module<'_>) -> io::Result<()>
    ensures { OnOk result (text.new.items ≡ text.old.items ++ parts_text «module».now) }
{
    let functions = functions_of(alloc, module)?;
    let entry = has_entry(
        module.types.as_slice(),
        functions.as_slice(),
        module.exports.as_slice(),
    );
    drop(functions);
    add_sizes(text, module.memories.as_slice(), module.tables.as_slice())?;
    add_counts(
        text,
        module.functions.len(),
        module.globals.len(),
        module.start,
        entry_text(entry),
    )
}

/// Adds what the module is.
pub(crate) fn add_survey<L: Links>(
    alloc: Global,
    text: &mut Vec<u8>,
    links: &L,
    module: &Module<'_>,
) -> io::Result<()>
    ensures { OnOk result (text.new.items ≡ text.old.items ++ survey_of L.links «module».now) }
{
    text.write_all(b"loads:yes\n")?;
    add_imports(
        text,
        links,
        module.types.as_slice(),
        module.imports.as_slice(),
    )?;
    add_exports(text, module.exports.as_slice())?;
    add_parts(alloc, text, module)
}

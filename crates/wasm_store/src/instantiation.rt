//! From a valid module to what its instance begins with.

ghost use Rattle.std.specs.Prelude.{◌≡◌, ◌⊎◌, ℕ, List, ◌∷◌, ◌+◌, ◌*◌, ◌^◌, ◌<◌, ◌≤◌, Some, None, length, replicate, slice_get, IfOk, IfErr, IfSome, IfNone};
ghost use Rattle.std.specs.Bool.{OnTrue, OnFalse};
ghost use Rattle.wasm_valid.specs.Spaces.{functions_of};
ghost use Rattle.wasm_valid.specs.Validity.{IsValid, ExportFits};
ghost use Rattle.wasm_store.specs.Values.{Val, numbers};
ghost use Rattle.std.specs.Option.{option_map};
ghost use Rattle.wasm_store.specs.NotStarting.{ElementsOutside, DataOutside, RefusedFor};
ghost use Rattle.wasm_store.specs.Instantiation.{IsExportedAs, AreFirst, minimum, page_limit as limit_of, segment_start, ElementsInside, DataInside, with_elements, with_data};
ghost use Rattle.wasm_store.specs.internal.Finding.{IsNarrow, ImportsFunctions, HasType, ExportsAs, AreFound, NotFound, HaveFirst, AreStored, NotStored, links_with};
ghost use Rattle.wasm_store.specs.Instantiating.{IsInstantiated};
ghost use Rattle.wasm_store.specs.Allocation.{may_embed as may_be_embedders, with_embedder};
ghost use Rattle.wasm_store.specs.Allocating.{IsAllocated, NotAllocated};

use crate::fault::InstanceFault;
use crate::globals::Globals;
use crate::host::Host;
use crate::linked::Linked;
use crate::memory::{Memory, PAGE_SIZE};
use crate::table::Table;
use std::alloc::{AllocError, Global};
use wasm_module::{Export, ExportKind, FuncType, Import, ImportKind, Instruction, Limits, Module};
use wasm_valid::Valid;

/// A function of whoever embeds the machine takes at most this many arguments.
pub const MOST_PARAMETERS: usize = 16;

/// What an instance begins with.
#[derive(Drop)]
pub struct Instantiated {
    /// The host's call of each import.
    pub calls: Vec<Linked>,
    pub memory: Memory,
    /// Pages that memory may have.
    pub page_limit: u32,
    pub table: Table,
    pub globals: Globals,
    /// The function that runs before `_start`, if there is one.
    pub start: Option<u32>,
    /// The exported function `_start`.
    pub main: u32,
}

/// Instantiates a module (section 4.5.4) over the calls that the host links, with at most this many pages of memory.
///
/// The globals get their first values first, so that an offset may be one; nothing is written to the table and to
/// memory before all segments are found to be inside.
pub fn instantiate<H: Host>(
    alloc: Global,
    valid: &Valid<'_>,
    pages: u32,
    host: &H,
) -> Result<Instantiated, InstanceFault>
    ensures instantiated { IfOk result (λ r. IsInstantiated (H.links host.now) pages valid.now r) }

    // Of several reasons the first is named, in the order 13, 14, 22, 21, 20.
    ensures refused { IfErr result (λ e. RefusedFor (H.links host.now) pages valid.now e) }
{
    let guest = valid.module();
    let calls = link(alloc, guest, host, None)?;
    let Some(main) = exported_function(guest, "_start") else {
        return Err(InstanceFault::NoStart);
    };
    let initial_pages = first_pages(guest, pages)?;
    let stores = first_stores(alloc, guest, initial_pages)?;
    Ok(Instantiated {
        calls,
        memory: stores.memory,
        page_limit: page_limit(guest.memories.as_slice(), pages),
        table: stores.table,
        globals: stores.globals,
        start: guest.start,
        main,
    })
}

/// What an instance begins with whose exported functions are called.
#[derive(Drop)]
pub struct Allocated {
    /// What answers each import.
    pub calls: Vec<Linked>,
    pub memory: Memory,
    /// Pages that memory may have.
    pub page_limit: u32,
    pub table: Table,
    pub globals: Globals,
    /// The function that runs first, if there is one.
    pub start: Option<u32>,
    /// The exported function `_initialize`, if there is one of type `[] -> []`. It runs next.
    pub initializer: Option<u32>,
}

/// Instantiates a module as `instantiate` does, but asks for no `_start`. An import that the host doesn't link is a function of
/// whoever embeds the machine, unless its module name is `reserved` or it takes more than `MOST_PARAMETERS` arguments. A module
/// whose start function or `_initialize` is such an import is refused with 13, as one with an import that nobody answers.
pub fn allocate<H: Host>(
    alloc: Global,
    valid: &Valid<'_>,
    pages: u32,
    host: &H,
    reserved: &str,
) -> Result<Allocated, InstanceFault>
    ensures allocated { IfOk result (λ r. IsAllocated
        (with_embedder (H.links host.now) reserved.now) pages valid.now r) }

    // Of several reasons the first is named, in the order 13, 22, 21, 20.
    ensures refused { IfErr result (λ e. NotAllocated
        (with_embedder (H.links host.now) reserved.now) pages valid.now e) }
{
    let guest = valid.module();
    let calls = link(alloc, guest, host, Some(reserved))?;
    let initializer = exported_function(guest, "_initialize");
    if enters_embedders(calls.as_slice(), guest.start, initializer) {
        return Err(InstanceFault::Import);
    }
    let initial_pages = first_pages(guest, pages)?;
    let stores = first_stores(alloc, guest, initial_pages)?;
    Ok(Allocated {
        calls,
        memory: stores.memory,
        page_limit: page_limit(guest.memories.as_slice(), pages),
        table: stores.table,
        globals: stores.globals,
        start: guest.start,
        initializer,
    })
}

/// Whether a function is an import that the embedder answers.
fn is_embedders(calls: &[Linked], function: Option<u32>) -> bool
    ensures yes { OnTrue result ((x : ℕ) × (k : ℕ) × (function ≡ Some x)
        × (slice_get calls.now x ≡ Some (Linked.Embedder k))) }
    ensures no { OnFalse result ((x k : ℕ) → function ≡ Some x
        → slice_get calls.now x ≡ Some (Linked.Embedder k) → ⊥) }
{
    let Some(function) = function else {
        return false;
    };
    matches!(calls.get(function as usize), Some(Linked::Embedder(_)))
}

/// Whether the start function or the initializer is an import that the embedder answers.
fn enters_embedders(calls: &[Linked], start: Option<u32>, initializer: Option<u32>) -> bool
    ensures yes { OnTrue result ((x : ℕ) × (k : ℕ) × ((start ≡ Some x) ⊎ (initializer ≡ Some x))
        × (slice_get calls.now x ≡ Some (Linked.Embedder k))) }
    ensures no { OnFalse result ((x k : ℕ) → (start ≡ Some x) ⊎ (initializer ≡ Some x)
        → slice_get calls.now x ≡ Some (Linked.Embedder k) → ⊥) }
{
    is_embedders(calls, start) || is_embedders(calls, initializer)
}

/// How many pages memory begins with, where that is at most so many.
fn first_pages(guest: &Module, pages: u32) -> Result<u32, InstanceFault>
    ensures within { IfOk result (λ n. (n ≡ minimum guest.now.memories) × (n ≤ pages)) }
    ensures refused { IfErr result (λ e. (e ≡ InstanceFault.PageLimit)
        × (pages < minimum guest.now.memories)) }
{
    let initial_pages = minimum(guest.memories.as_slice());
    if pages < initial_pages {
        return Err(InstanceFault::PageLimit);
    }
    Ok(initial_pages)
}

/// What an instance keeps beside its calls.
#[derive(Drop)]
struct Stores {
    globals: Globals,
    memory: Memory,
    table: Table,
}

/// The globals, the memory of this many pages and the table of a module, with the segments in them.
fn first_stores(alloc: Global, guest: &Module, initial_pages: u32) -> Result<Stores, InstanceFault>
    requires valid { IsValid guest.now }
    requires functions { ImportsFunctions guest.now }
    requires initial { initial_pages ≡ minimum guest.now.memories }
    ensures stored { IfOk result (λ s. AreStored guest.now s.memory s.table s.globals) }
    ensures refused { IfErr result (λ e. NotStored guest.now e) }
{
    let globals = first_globals(alloc, guest)?;
    let table_size = minimum(guest.tables.as_slice());
    if !elements_fit(guest, globals.as_slice(), table_size as usize) {
        return Err(InstanceFault::ElementOutOfBounds);
    }
    let memory_size = initial_pages as usize * PAGE_SIZE;
    if !data_fits(guest, globals.as_slice(), memory_size) {
        return Err(InstanceFault::DataOutOfBounds);
    }
    let memory = first_memory(alloc, guest, globals.as_slice(), initial_pages)?;
    let table = first_table(alloc, guest, globals.as_slice(), table_size)?;
    Ok(Stores {
        globals,
        memory,
        table,
    })
}

/// Whether the embedder answers an import that the host doesn't link, where this module name is the host's alone.
fn may_embed(reserved: &str, module_name: &str, func_type: &FuncType) -> bool
    ensures { result ≡ may_be_embedders reserved.now module_name.now func_type.now }
{
    module_name != reserved && func_type.params.len() <= MOST_PARAMETERS
}

/// What answers the import of this index, which has this type. With an embedder, a module name is given that is the host's alone.
fn linked<H: Host>(
    host: &H,
    embedder: Option<&str>,
    index: usize,
    import: &Import,
    func_type: &FuncType,
) -> Option<Linked>
    ensures { result ≡ links_with (H.links host.now) (option_map (λ s. s.now) embedder.entry) index
        import.now.module_name import.now.name func_type.now }
{
    let module_name = import.module_name.as_str();
    if let Some(call) = host.link(module_name, import.name.as_str(), func_type) {
        return Some(Linked::Host(call));
    }
    let reserved = embedder?;
    if !may_embed(reserved, module_name, func_type) {
        return None;
    }
    Some(Linked::Embedder(index))
}

/// What answers each import.
fn link<H: Host>(
    alloc: Global,
    guest: &Module,
    host: &H,
    embedder: Option<&str>,
) -> Result<Vec<Linked>, InstanceFault>
    requires { IsValid guest.now }
    ensures found { IfOk result (λ calls. AreFound
        (links_with (H.links host.now) (option_map (λ s. s.now) embedder.entry)) guest.now
        calls.items) }
    ensures missing { IfErr result (λ e. NotFound
        (links_with (H.links host.now) (option_map (λ s. s.now) embedder.entry)) guest.now e) }
{
    let mut calls = Vec::new(alloc);
    for import in guest.imports.as_slice() {
        let ImportKind::Function(type_index) = import.kind else {
            return Err(InstanceFault::Import);
        };
        let func_type = &guest.types.as_slice()[type_index as usize];
        let Some(call) = linked(host, embedder, calls.len(), import, func_type) else {
            return Err(InstanceFault::Import);
        };
        calls.push(call)?;
    }
    Ok(calls)
}

/// The function that is exported by this name, if its type is `[] -> []`.
fn exported_function(guest: &Module, name: &str) -> Option<u32>
    requires valid { IsValid guest.now }
    requires functions { ImportsFunctions guest.now }
    ensures found { IfSome result (λ x. IsExportedAs name.now guest.now x) }
    ensures missing { IfNone result ((x : ℕ) → IsExportedAs name.now guest.now x → ⊥) }
{
    for export in guest.exports.as_slice() {
        if let Some(function) = exported_by(guest, export, name) {
            return Some(function);
        }
    }
    None
}

/// The function of this export, if it has this name and type `[] -> []`.
fn exported_by(guest: &Module, export: &Export, name: &str) -> Option<u32>
    requires valid { IsValid guest.now }
    requires functions { ImportsFunctions guest.now }
    requires fits { ExportFits guest.now export.now.kind }
    ensures found { IfSome result (λ x. ExportsAs name.now guest.now export.now x) }
    ensures other { IfNone result ((x : ℕ) → ExportsAs name.now guest.now export.now x → ⊥) }
{
    let ExportKind::Function(function) = export.kind else {
        return None;
    };
    if export.name.as_str() != name {
        return None;
    }
    let func_type = function_type(guest, function);
    if !func_type.params.is_empty() || !func_type.results.is_empty() {
        return None;
    }
    Some(function)
}

/// The type of a function, imported or the module's own.
fn function_type<'m>(guest: &'m Module, function: u32) -> &'m FuncType
    requires valid { IsValid guest.now }
    requires functions { ImportsFunctions guest.now }
    requires fits { function < length (functions_of guest.now) }
    ensures { HasType guest.now function result.now }
{
    let index = type_index(guest, function);
    &guest.types.as_slice()[index as usize]
}

/// The index of a function's type.
fn type_index(guest: &Module, function: u32) -> u32
    requires functions { ImportsFunctions guest.now }
    requires fits { function < length (functions_of guest.now) }
    ensures { slice_get (functions_of guest.now) function ≡ Some result }
{
    let function = function as usize;
    let imports = guest.imports.as_slice();
    if function < imports.len() {
        match imports[function].kind {
            ImportKind::Function(index) => index,
            _ => unreachable!(),
        }
    } else {
        guest.functions.as_slice()[function - imports.len()]
    }
}

/// How many pages or elements there are from the beginning: none where there is no memory, no table.
fn minimum(limits: &[Limits]) -> u32
    ensures { result ≡ minimum limits.now }
{
    match limits {
        [] => 0,
        [limits, ..] => limits.min,
    }
}

/// Pages that memory may have: at most the declared maximum, the limit handed in and 65,536.
fn page_limit(memories: &[Limits], pages: u32) -> u32
    ensures { result ≡ limit_of pages memories.now }
{
    match memories {
        [] => 0,
        [limits, ..] => limits.max.unwrap_or(65_536).min(pages).min(65_536),
    }
}

/// The first values of the globals. Since no global is imported, each is a constant.
fn first_globals(alloc: Global, guest: &Module) -> Result<Globals, AllocError>
    requires valid { IsValid guest.now }
    requires functions { ImportsFunctions guest.now }
    ensures { IfOk result (λ globals. HaveFirst guest.now globals) }
{
    let mut values = Vec::with_capacity(alloc, guest.globals.len())?;
    for entry in guest.globals.as_slice() {
        values.push(constant(&[], entry.init.as_slice()))?;
    }
    Ok(Globals::new(values))
}

/// The value of a constant expression (section 4.4.8) over these globals; 0 where it has none.
fn constant(globals: &[u64], code: &[Instruction]) -> u64
    ensures value { (vs : List Val) → numbers vs ≡ globals.now
        → result ≡ segment_start vs code.now }
    ensures small { IsNarrow code.now → result < 2 ^ 32 }
{
    match code.first() {
        Some(Instruction::I32Const(value)) => u64::from(*value),
        Some(Instruction::I64Const(value)) => *value,
        Some(Instruction::F32Const(bits)) => u64::from(*bits),
        Some(Instruction::F64Const(bits)) => *bits,
        Some(Instruction::GlobalGet(index)) => globals.get(*index as usize).copied().unwrap_or(0),
        _ => 0,
    }
}

/// Whether this many elements or bytes from here on are inside, also where there are none.
fn is_inside(start: u64, len: usize, size: usize) -> bool
    ensures inside { OnTrue result (start + len ≤ size) }
    ensures outside { OnFalse result (size < start + len) }
{
    len <= size && start <= (size - len) as u64
}

/// Whether each element segment stands inside a table of this size.
fn elements_fit(guest: &Module, globals: &[u64], size: usize) -> bool
    ensures inside { OnTrue result ((vs : List Val) → numbers vs ≡ globals.now
        → ElementsInside vs size guest.now.element_segments) }
    ensures outside { OnFalse result ((vs : List Val) → numbers vs ≡ globals.now
        → ElementsOutside vs size guest.now.element_segments) }
{
    for segment in guest.element_segments.as_slice() {
        let start = constant(globals, segment.offset.as_slice());
        if !is_inside(start, segment.functions.len(), size) {
            return false;
        }
    }
    true
}

/// Whether each data segment stands inside a memory of this size.
fn data_fits(guest: &Module, globals: &[u64], size: usize) -> bool
    ensures inside { OnTrue result ((vs : List Val) → numbers vs ≡ globals.now
        → DataInside vs size guest.now.data_segments) }
    ensures outside { OnFalse result ((vs : List Val) → numbers vs ≡ globals.now
        → DataOutside vs size guest.now.data_segments) }
{
    for segment in guest.data_segments.as_slice() {
        let start = constant(globals, segment.offset.as_slice());
        if !is_inside(start, segment.bytes.as_slice().len(), size) {
            return false;
        }
    }
    true
}

/// A table of this many elements with the element segments in it.
fn first_table(
    alloc: Global,
    guest: &Module,
    globals: &[u64],
    size: u32,
) -> Result<Table, AllocError>
    requires inside { (vs : List Val) → numbers vs ≡ globals.now
        → ElementsInside vs size guest.now.element_segments }
    ensures { IfOk result (λ t. (vs : List Val) → numbers vs ≡ globals.now
        → t ≡ with_elements vs (replicate size None) guest.now.element_segments) }
{
    let mut table = Table::new(alloc, size)?;
    for segment in guest.element_segments.as_slice() {
        let start = constant(globals, segment.offset.as_slice());
        table.set(start as usize, segment.functions.as_slice());
    }
    Ok(table)
}

/// Memory of this many pages with the data segments in it.
fn first_memory(
    alloc: Global,
    guest: &Module,
    globals: &[u64],
    pages: u32,
) -> Result<Memory, AllocError>
    requires inside { (vs : List Val) → numbers vs ≡ globals.now
        → DataInside vs (pages * 65536) guest.now.data_segments }
    ensures { IfOk result (λ m. (vs : List Val) → numbers vs ≡ globals.now
        → m ≡ with_data vs (replicate (pages * 65536) 0) guest.now.data_segments) }
{
    let mut memory = Memory::new(alloc, pages)?;
    for segment in guest.data_segments.as_slice() {
        let start = constant(globals, segment.offset.as_slice());
        memory.put(start as usize, segment.bytes.as_slice());
    }
    Ok(memory)
}

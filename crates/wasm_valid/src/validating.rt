//! Validation of modules (section 3.4.10).

ghost use Rattle.std.specs.Prelude.{◌≡◌, ◌≢◌, IfOk, IfErr, IsTrue, length};
ghost use Rattle.wasm_valid.specs.Typing.{Context};
ghost use Rattle.wasm_valid.specs.Spaces.{tables_of, memories_of};
ghost use Rattle.wasm_valid.specs.Validity.{IsValid, FunctionsTyped, has_any};
ghost use Rattle.wasm_valid.specs.Refusal.{IsRefusal};
ghost use Rattle.wasm_valid.specs.internal.Answers.{Decides};
ghost use Rattle.wasm_valid.specs.internal.Bodies.{BodyTyped};
ghost use Rattle.wasm_valid.specs.internal.Rules.{TypesFit, LimitsHold, GlobalsHold, ListsFit, StartFits, counts_of};
ghost use Rattle.wasm_valid.specs.internal.Contexts.{IsModuleContext, IsModuleContextOf};

use crate::module_context::ModuleContext;
use crate::module_rules::{
    Counts, all_limits_fit, are_below, data_fits, elements_fit, exports_fit, globals, globals_fit,
    have_one_result, imported_functions, imported_globals, memories, tables,
};
use crate::names::names_differ;
use crate::places::instruction_offset;
use crate::valid::Valid;
use std::alloc::Global;
use wasm_module::{Body, Limits, LoadFault, Module};

/// Checks a module (section 3.4.10). One that isn't valid is refused with fault 12: a rule on the
/// module's lists with the offset of the list, and a body with its index among the module's own
/// bodies and the offset of the instruction.
pub fn validate<'a>(alloc: Global, module: Module<'a>) -> Result<Valid<'a>, LoadFault>
    ensures valid { IfOk result (λ v. (v ≡ «module».entry) × IsValid «module».entry) }
    ensures refused { IfErr result IsRefusal }
    ensures no { IfErr result (λ e. e ≢ LoadFault.Memory → IsValid «module».entry → ⊥) }
{
    match check(alloc, &module) {
        Ok(()) => Ok(Valid::new(module)),
        Err(fault) => {
            drop(module);
            Err(fault)
        }
    }
}

fn check(alloc: Global, module: &Module<'_>) -> Result<(), LoadFault>
    ensures { Decides result (IsValid «module».now) }
{
    let tables = tables(alloc, module)?;
    let memories = memories(alloc, module)?;
    check_over(alloc, module, tables.as_slice(), memories.as_slice())
}

/// Checks a module that has these tables and memories.
fn check_over(
    alloc: Global,
    module: &Module<'_>,
    tables: &[Limits],
    memories: &[Limits],
) -> Result<(), LoadFault>
    requires tables { tables.now ≡ tables_of «module».now }
    requires memories { memories.now ≡ memories_of «module».now }
    ensures { Decides result (IsValid «module».now) }
{
    check_limits(module, tables, memories)?;
    check_globals(alloc, module)?;
    let module_context = module_context(alloc, module, !tables.is_empty(), !memories.is_empty())?;
    let counts = Counts {
        functions: module_context.type_indices.len(),
        tables: tables.len(),
        memories: memories.len(),
        globals: module_context.globals.len(),
    };
    check_within(alloc, module, &module_context, counts)
}

/// Checks what the rules say within the module's context.
fn check_within(
    alloc: Global,
    module: &Module<'_>,
    module_context: &ModuleContext<'_>,
    counts: Counts,
) -> Result<(), LoadFault>
    requires limits { LimitsHold «module».now }
    requires globals { GlobalsHold «module».now }
    requires types { TypesFit «module».now }
    requires module_context { IsModuleContextOf module_context.now «module».now }
    requires counts { counts ≡ counts_of «module».now }
    ensures { Decides result (IsValid «module».now) }
{
    check_lists(alloc, module, module_context, counts)?;
    check_start(module, module_context)?;
    check_bodies(alloc, module, module_context)
}

/// Refuses a module one of whose rules doesn't hold. The offset is that of the list concerned.
fn rule(holds: bool, offset: u32) -> Result<(), LoadFault>
    ensures { Decides result (IsTrue holds) }
{
    if holds {
        Ok(())
    } else {
        Err(LoadFault::Invalid {
            function: None,
            offset,
        })
    }
}

fn check_limits(
    module: &Module<'_>,
    tables: &[Limits],
    memories: &[Limits],
) -> Result<(), LoadFault>
    requires tables { tables.now ≡ tables_of «module».now }
    requires memories { memories.now ≡ memories_of «module».now }
    ensures { Decides result (LimitsHold «module».now) }
{
    rule(tables.len() <= 1, module.tables.offset())?;
    rule(memories.len() <= 1, module.memories.offset())?;
    rule(all_limits_fit(tables, 1 << 32), module.tables.offset())?;
    rule(all_limits_fit(memories, 65536), module.memories.offset())?;
    Ok(())
}

fn check_globals(alloc: Global, module: &Module<'_>) -> Result<(), LoadFault>
    ensures { Decides result (GlobalsHold «module».now) }
{
    let imported = imported_globals(alloc, module.imports.as_slice())?;
    rule(
        globals_fit(imported.as_slice(), module.globals.as_slice()),
        module.globals.offset(),
    )
}

fn module_context<'m>(
    alloc: Global,
    module: &'m Module<'_>,
    has_table: bool,
    has_memory: bool,
) -> Result<ModuleContext<'m>, LoadFault>
    requires table { has_table ≡ has_any (tables_of «module».now) }
    requires memory { has_memory ≡ has_any (memories_of «module».now) }
    ensures module_context { IfOk result (λ module_context. IsModuleContextOf module_context
        «module».now) }
    ensures types { Decides result (TypesFit «module».now) }
{
    let types = module.types.as_slice();
    rule(have_one_result(types), module.types.offset())?;
    let mut type_indices = imported_functions(alloc, module.imports.as_slice())?;
    rule(
        are_below(type_indices.as_slice(), types.len()),
        module.imports.offset(),
    )?;
    let functions = module.functions.as_slice();
    rule(are_below(functions, types.len()), module.functions.offset())?;
    type_indices.extend_from_slice(functions)?;
    Ok(ModuleContext {
        types,
        type_indices,
        globals: globals(alloc, module)?,
        has_table,
        has_memory,
    })
}

fn check_lists(
    alloc: Global,
    module: &Module<'_>,
    module_context: &ModuleContext<'_>,
    counts: Counts,
) -> Result<(), LoadFault>
    requires module_context { IsModuleContextOf module_context.now «module».now }
    requires counts { counts ≡ counts_of «module».now }
    ensures { Decides result (ListsFit «module».now) }
{
    let globals = module_context.globals.as_slice();
    let exports = module.exports.as_slice();
    rule(exports_fit(exports, counts), module.exports.offset())?;
    rule(names_differ(alloc, exports)?, module.exports.offset())?;
    rule(
        elements_fit(globals, counts, module.element_segments.as_slice()),
        module.element_segments.offset(),
    )?;
    rule(
        data_fits(globals, counts, module.data_segments.as_slice()),
        module.data_segments.offset(),
    )?;
    Ok(())
}

/// The start function has no parameters and no results (section 3.4.7).
fn check_start(module: &Module<'_>, module_context: &ModuleContext<'_>) -> Result<(), LoadFault>
    requires { IsModuleContextOf module_context.now «module».now }
    ensures { (c : Context) → IsModuleContext module_context.now c
        → Decides result (StartFits c «module».now) }
{
    match module.start {
        Some(index) => rule(module_context.can_start(index), 0),
        None => Ok(()),
    }
}

fn check_bodies(
    alloc: Global,
    module: &Module<'_>,
    module_context: &ModuleContext<'_>,
) -> Result<(), LoadFault>
    requires { IsModuleContextOf module_context.now «module».now }
    ensures { (c : Context) → IsModuleContext module_context.now c
        → Decides result (FunctionsTyped c «module».now.types «module».now.functions
        «module».now.bodies) }
{
    let functions = module.functions.as_slice();
    let bodies = module.bodies.as_slice();
    rule(functions.len() == bodies.len(), module.bodies.offset())?;
    for (i, body) in bodies.iter().enumerate() {
        check_body(alloc, module_context, functions[i], body, i)?;
    }
    Ok(())
}

/// Checks the body of this index among the module's own.
fn check_body(
    alloc: Global,
    module_context: &ModuleContext<'_>,
    type_index: u32,
    body: &Body<'_>,
    index: usize,
) -> Result<(), LoadFault>
    ensures { (c : Context) → IsModuleContext module_context.now c
        → Decides result (BodyTyped c module_context.now.types.now type_index body.now) }
{
    match module_context.untyped_body(alloc, type_index, body)? {
        Some(place) => Err(LoadFault::Invalid {
            function: u32::try_from(index).ok(),
            offset: instruction_offset(body, place),
        }),
        None => Ok(()),
    }
}

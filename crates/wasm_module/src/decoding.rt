//! A module from its bytes (section 5.5.15).

ghost use Rattle.std.specs.Prelude.{◌≡◌, ◌≢◌, ℕ, List, IfOk, IfErr};
ghost use Rattle.wasm_syntax.specs.Module.{Spells, SpellsWith};
ghost use Rattle.wasm_module.specs.internal.ModuleReading.{word_at, preamble_at, list_at, code_parts_at, start_parts_at, link_parts_at, storage_parts_at, sections_at, decoded_of, is_counted, counts_agree, module_and_count, module_from};
ghost use Rattle.wasm_syntax.specs.Reading.{Gives, Allows, map_at, then_at};
ghost use Rattle.wasm_syntax.specs.internal.TypesReading.{table_at};
ghost use Rattle.wasm_syntax.specs.declared.module.Module.{Module as ModuleValue};
ghost use Rattle.wasm_syntax.specs.declared.profile.Profile.{Profile as ProfileValue};

use crate::cursor::{Cursor, Decode};
use crate::limits;
use crate::parts::Tables;
use std::alloc::Global;
use wasm_syntax::fault::LoadFault;
use wasm_syntax::items::Items;
use wasm_syntax::module::{
    Body, DataSegment, ElementSegment, Export, FuncType, GlobalEntry, Import, Limits, Module,
};
use wasm_syntax::profile::Profile;

/// How many bytes a module has at most.
const MOST_BYTES: u32 = 67_108_864;

/// The greatest id of a section.
const LAST_SECTION: u8 = 12;

/// Four bytes, which have to be these.
#[tactic(auto, unfolding(crate::specs::internal::ModuleReading::word_at))]
fn word(cursor: &mut Cursor<'_>, bytes: (u8, u8, u8, u8), fault: LoadFault) -> Result<(), LoadFault>
    ensures { Gives (λ x. (x, cursor.new)) result
        (word_at bytes.0 bytes.1 bytes.2 bytes.3 cursor.old) }
{
    cursor.expect(bytes.0, fault)?;
    cursor.expect(bytes.1, fault)?;
    cursor.expect(bytes.2, fault)?;
    cursor.expect(bytes.3, fault)
}

fn preamble(cursor: &mut Cursor<'_>) -> Result<(), LoadFault>
    ensures { Gives (λ x. (x, cursor.new)) result (preamble_at cursor.old) }
{
    let too_short = LoadFault::Truncated {
        offset: cursor.end(),
    };
    let magic = if cursor.len() < 4 {
        too_short
    } else {
        LoadFault::BadMagic { offset: 0 }
    };
    let version = if cursor.len() < 8 {
        too_short
    } else {
        LoadFault::BadVersion { offset: 4 }
    };
    word(cursor, (0x00, 0x61, 0x73, 0x6D), magic)?;
    word(cursor, (0x01, 0x00, 0x00, 0x00), version)
}

/// A section that is a list; one that is absent is empty.
fn list<'a, T: Decode<'a>>(
    alloc: Global,
    cursor: &mut Cursor<'a>,
    profile: Profile,
    id: u8,
) -> Result<Items<T>, LoadFault>
    ensures { Gives (λ x. (x, cursor.new)) result (list_at id (T.at profile) cursor.old) }
{
    match cursor.section(alloc, profile, id)? {
        Some(items) => Ok(items),
        None => Ok(Items::new(alloc)),
    }
}

/// Two such sections, one after the other.
fn two_lists<'a, A: Decode<'a>, B: Decode<'a>>(
    alloc: Global,
    cursor: &mut Cursor<'a>,
    profile: Profile,
    ids: (u8, u8),
) -> Result<(Items<A>, Items<B>), LoadFault>
    ensures { Gives (λ x. (x, cursor.new)) result
        (then_at (list_at ids.0 (A.at profile)) (list_at ids.1 (B.at profile)) cursor.old) }
{
    let first = list(alloc, cursor, profile, ids.0)?;
    let second = list(alloc, cursor, profile, ids.1)?;
    Ok((first, second))
}

fn tables(
    alloc: Global,
    cursor: &mut Cursor<'_>,
    profile: Profile,
) -> Result<Items<Limits>, LoadFault>
    ensures { Gives (λ x. (x, cursor.new)) result (list_at 4 table_at cursor.old) }
{
    let section: Option<Tables> = cursor.section(alloc, profile, 4)?;
    match section {
        Some(tables) => Ok(tables.limits),
        None => Ok(Items::new(alloc)),
    }
}

/// What the last sections hold.
#[derive(Drop)]
struct CodeParts<'a> {
    data_count: Option<u32>,
    bodies: Items<Body<'a>>,
    data_segments: Items<DataSegment<'a>>,
}

/// What the sections from the start function on hold.
#[derive(Drop)]
struct StartParts<'a> {
    start: Option<u32>,
    element_segments: Items<ElementSegment>,
    code: CodeParts<'a>,
}

/// What the sections from the exports on hold.
#[derive(Drop)]
struct LinkParts<'a> {
    exports: Items<Export<'a>>,
    rest: StartParts<'a>,
}

/// What the sections from the tables on hold.
#[derive(Drop)]
struct StorageParts<'a> {
    tables: Items<Limits>,
    memories: Items<Limits>,
    globals: Items<GlobalEntry>,
    link: LinkParts<'a>,
}

// Several functions read the sections, two lists at a time where they can: where one can't be read,
// what was read before it is let go, and in one function that would be eleven lists at thirteen
// exits.

fn code_parts<'a>(
    alloc: Global,
    cursor: &mut Cursor<'a>,
    profile: Profile,
) -> Result<CodeParts<'a>, LoadFault>
    ensures { Gives (λ x. ((x.data_count, (x.bodies, x.data_segments)), cursor.new)) result
        (code_parts_at profile cursor.old) }
{
    let data_count = cursor.section(alloc, profile, 12)?;
    let (bodies, data_segments) = two_lists(alloc, cursor, profile, (10, 11))?;
    Ok(CodeParts {
        data_count,
        bodies,
        data_segments,
    })
}

fn start_parts<'a>(
    alloc: Global,
    cursor: &mut Cursor<'a>,
    profile: Profile,
) -> Result<StartParts<'a>, LoadFault>
    ensures { Gives (λ x. (
      (
        x.start,
        (
          x.element_segments,
          (x.code.data_count, (x.code.bodies, x.code.data_segments)),
        ),
      ),
      cursor.new,
    )) result
        (start_parts_at profile cursor.old) }
{
    let start = cursor.section(alloc, profile, 8)?;
    let element_segments = list(alloc, cursor, profile, 9)?;
    let code = code_parts(alloc, cursor, profile)?;
    Ok(StartParts {
        start,
        element_segments,
        code,
    })
}

fn link_parts<'a>(
    alloc: Global,
    cursor: &mut Cursor<'a>,
    profile: Profile,
) -> Result<LinkParts<'a>, LoadFault>
    ensures { Gives (λ x. (
      (
        x.exports,
        (
          x.rest.start,
          (
            x.rest.element_segments,
            (
              x.rest.code.data_count,
              (x.rest.code.bodies, x.rest.code.data_segments),
            ),
          ),
        ),
      ),
      cursor.new,
    )) result
        (link_parts_at profile cursor.old) }
{
    let exports = list(alloc, cursor, profile, 7)?;
    let rest = start_parts(alloc, cursor, profile)?;
    Ok(LinkParts { exports, rest })
}

fn storage_parts<'a>(
    alloc: Global,
    cursor: &mut Cursor<'a>,
    profile: Profile,
) -> Result<StorageParts<'a>, LoadFault>
    ensures { Gives (λ x. (
      (
        x.tables,
        (
          x.memories,
          (
            x.globals,
            (
              x.link.exports,
              (
                x.link.rest.start,
                (
                  x.link.rest.element_segments,
                  (
                    x.link.rest.code.data_count,
                    (x.link.rest.code.bodies, x.link.rest.code.data_segments),
                  ),
                ),
              ),
            ),
          ),
        ),
      ),
      cursor.new,
    )) result
        (storage_parts_at profile cursor.old) }
{
    let tables = tables(alloc, cursor, profile)?;
    let (memories, globals) = two_lists(alloc, cursor, profile, (5, 6))?;
    let link = link_parts(alloc, cursor, profile)?;
    Ok(StorageParts {
        tables,
        memories,
        globals,
        link,
    })
}

/// The module of these parts, and how many data segments it says that it has.
fn assembled<'a>(
    types: Items<FuncType>,
    imports: Items<Import<'a>>,
    functions: Items<u32>,
    storage: StorageParts<'a>,
) -> (Module<'a>, Option<u32>)
    ensures { result ≡ decoded_of (
      tt,
      (
        types,
        (
          imports.entry,
          (
            functions,
            (
              storage.entry.tables,
              (
                storage.entry.memories,
                (
                  storage.entry.globals,
                  (
                    storage.entry.link.exports,
                    (
                      storage.entry.link.rest.start,
                      (
                        storage.entry.link.rest.element_segments,
                        (
                          storage.entry.link.rest.code.data_count,
                          (
                            storage.entry.link.rest.code.bodies,
                            storage.entry.link.rest.code.data_segments,
                          ),
                        ),
                      ),
                    ),
                  ),
                ),
              ),
            ),
          ),
        ),
      ),
    ) }
{
    let link = storage.link;
    let rest = link.rest;
    let code = rest.code;
    let decoded = Module {
        types,
        imports,
        functions,
        tables: storage.tables,
        memories: storage.memories,
        globals: storage.globals,
        exports: link.exports,
        start: rest.start,
        element_segments: rest.element_segments,
        bodies: code.bodies,
        data_segments: code.data_segments,
    };
    (decoded, code.data_count)
}

/// The sections in their order: the module, and how many data segments it says that it has.
fn sections<'a>(
    alloc: Global,
    cursor: &mut Cursor<'a>,
    profile: Profile,
) -> Result<(Module<'a>, Option<u32>), LoadFault>
    ensures { Gives (λ x. (x, cursor.new)) result
        (map_at module_and_count (sections_at profile) cursor.old) }
{
    cursor.customs()?;
    let types = list(alloc, cursor, profile, 1)?;
    let (imports, functions) = two_lists(alloc, cursor, profile, (2, 3))?;
    let storage = storage_parts(alloc, cursor, profile)?;
    Ok(assembled(types, imports, functions, storage))
}

/// Why no section can begin here, where all that may follow have been looked for.
fn misplaced(cursor: &Cursor<'_>) -> LoadFault {
    let offset = cursor.offset();
    if (1..=LAST_SECTION).any(|id| cursor.begins(id)) {
        LoadFault::SectionOrder { offset }
    } else {
        LoadFault::BadByte { offset }
    }
}

fn is_counted(data_count: Option<u32>, segments: usize) -> bool
    ensures { result ≡ is_counted data_count segments }
{
    match data_count {
        Some(count) => count as usize == segments,
        None => true,
    }
}

/// What holds beside the grammar.
#[tactic(auto, unfolding(crate::specs::internal::ModuleReading::counts_agree))]
fn check(bytes: &[u8], decoded: &Module<'_>, data_count: Option<u32>) -> Result<(), LoadFault>
    ensures { Allows result (counts_agree decoded.now data_count) }
{
    let types = decoded.types.as_slice();
    let functions = decoded.functions.as_slice();
    let bodies = decoded.bodies.as_slice();
    if !limits::fits_profile(types, functions, bodies) {
        let offset = limits::excess(bytes, decoded)?;
        return Err(LoadFault::Limit { offset });
    }
    let offset = Cursor::new(bytes).end();
    if functions.len() != bodies.len() {
        return Err(LoadFault::CountMismatch { offset });
    }
    if !is_counted(data_count, decoded.data_segments.len()) {
        return Err(LoadFault::CountMismatch { offset });
    }
    Ok(())
}

#[tactic(auto, unfolding(crate::specs::internal::ModuleReading::module_from))]
fn module<'a>(alloc: Global, bytes: &'a [u8], profile: Profile) -> Result<Module<'a>, LoadFault>
    ensures { Gives (λ m. m) result (module_from profile bytes.now) }
{
    let mut cursor = Cursor::new(bytes);
    if bytes.len() > MOST_BYTES as usize {
        return Err(LoadFault::Limit { offset: MOST_BYTES });
    }
    preamble(&mut cursor)?;
    let (decoded, data_count) = sections(alloc, &mut cursor, profile)?;
    if !cursor.is_empty() {
        drop(decoded);
        return Err(misplaced(&cursor));
    }
    match check(bytes, &decoded, data_count) {
        Ok(()) => Ok(decoded),
        Err(fault) => {
            drop(decoded);
            Err(fault)
        }
    }
}

/// The module that the bytes spell (section 5), without floats.
///
/// # Errors
///
/// `Memory` where memory was refused, else what is wrong with the bytes, and where.
pub fn decode(alloc: Global, bytes: &[u8]) -> Result<Module<'_>, LoadFault>
    ensures found { IfOk result (λ m. Spells bytes.now m) }
    ensures refused { IfErr result (λ e. (e ≢ LoadFault.Memory) → (m : ModuleValue)
        → Spells bytes.now m → ⊥) }
{
    decode_with(alloc, bytes, Profile::Integers)
}

/// The module that the bytes spell (section 5), with what the profile takes.
///
/// # Errors
///
/// `Memory` where memory was refused, else what is wrong with the bytes, and where.
pub fn decode_with(alloc: Global, bytes: &[u8], profile: Profile) -> Result<Module<'_>, LoadFault>
    ensures found { IfOk result (λ m. SpellsWith profile bytes.now m) }
    ensures refused { IfErr result (λ e. (e ≢ LoadFault.Memory) → (m : ModuleValue)
        → SpellsWith profile bytes.now m → ⊥) }
{
    module(alloc, bytes, profile)
}

/// Bytes spell at most one module.
pub fn one_module()
    ensures { (bytes : List ℕ) (m n : ModuleValue) → Spells bytes m → Spells bytes n → m ≡ n }
{}

/// With floats, too, bytes spell at most one module.
pub fn one_module_with()
    ensures { (p : ProfileValue) (bytes : List ℕ) (m n : ModuleValue) → SpellsWith p bytes m
        → SpellsWith p bytes n → m ≡ n }
{}

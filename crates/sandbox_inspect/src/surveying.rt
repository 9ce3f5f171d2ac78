//! What is told of a module's bytes.

ghost use Rattle.std.specs.Prelude.{◌≡◌, ◌≢◌, IfOk, IfErr};
ghost use Rattle.std.specs.IoError.{error_kind};
ghost use Rattle.wasm_syntax.specs.Module.{SpellsWith};
ghost use Rattle.wasm_valid.specs.Validity.{IsValid};
ghost use Rattle.sandbox_inspect.specs.Refusal.{IsRefusedFor, IsSurvey};
ghost use Rattle.stream_answers.specs.Hearing.{Moves, Refuses};
ghost use Rattle.sandbox_inspect.specs.Printing.{HearsPrinting, PrintsBeginning, Tells};

use crate::links::Links;
use crate::listing::add_survey;
use crate::refusal::add_refusal;
use std::alloc::Global;
use std::io;
use std::io::{Error, ErrorKind};
use stream_answers::{Outlet, print_all};
use wasm_module::{LoadFault, Profile, decode_with, one_module_with};
use wasm_valid::{Valid, validate};

/// Decodes the module that the bytes spell, with what the profile takes, and validates it.
fn load(alloc: Global, bytes: &[u8], profile: Profile) -> Result<Valid<'_>, LoadFault>
    ensures found { IfOk result (λ v. SpellsWith profile bytes.now v × IsValid v) }
    ensures refused { IfErr result (λ e. e ≢ LoadFault.Memory → IsRefusedFor profile bytes.now e) }
{
    let decoded = decode_with(alloc, bytes, profile)?;
    one_module_with(); // a law for the contract: what is found not valid is all that the bytes spell
    validate(alloc, decoded)
}

/// What is told of the bytes, and whether they are refused.
fn text_of<L: Links>(
    alloc: Global,
    links: &L,
    bytes: &[u8],
    profile: Profile,
) -> io::Result<(Vec<u8>, Result<(), LoadFault>)>
    ensures { IfOk result (λ told. IsSurvey L.links profile bytes.now told.1 told.0.items) }
{
    let mut text = Vec::new(alloc);
    match load(alloc, bytes, profile) {
        Ok(valid) => {
            let added = add_survey(alloc, &mut text, links, valid.module());
            drop(valid);
            added?;
            Ok((text, Ok(())))
        }
        Err(fault) => match fault {
            LoadFault::Memory => Err(Error::from(ErrorKind::OutOfMemory)),
            _ => {
                add_refusal(alloc, &mut text, bytes, profile, fault)?;
                Ok((text, Err(fault)))
            }
        },
    }
}

/// The same, where any failure is that memory was refused.
fn text_or_no_memory<L: Links>(
    alloc: Global,
    links: &L,
    bytes: &[u8],
    profile: Profile,
) -> io::Result<(Vec<u8>, Result<(), LoadFault>)>
    ensures told { IfOk result (λ told. IsSurvey L.links profile bytes.now told.1 told.0.items) }
    ensures memory { IfErr result (λ e. error_kind e ≡ ErrorKind.OutOfMemory) }
{
    match text_of(alloc, links, bytes, profile) {
        Ok(told) => Ok(told),
        Err(_) => Err(Error::from(ErrorKind::OutOfMemory)),
    }
}

/// Prints what the bytes are, with what the profile takes: of a valid module its imports, exports and sizes, else why they are refused, and in which
/// function. The answer says which.
///
/// # Errors
///
/// `OutOfMemory` where memory was refused, and nothing is printed then; else what the writer refused with, after a beginning
/// of the text.
pub fn survey<L: Links, W: Outlet>(
    alloc: Global,
    links: &L,
    bytes: &[u8],
    profile: Profile,
    out: &mut W,
) -> io::Result<Result<(), LoadFault>>
    ensures tells { IfOk result (Tells L.links profile bytes.now (W.contents out.old)
        (W.contents out.new)) }
    ensures begins { IfErr result (λ e. PrintsBeginning L.links profile bytes.now
        (W.contents out.old) (W.contents out.new) (error_kind e)) }
    ensures heard { HearsPrinting error_kind (Moves W.took) (Refuses W.took W.refused) result
        out.old out.new }
{
    match text_or_no_memory(alloc, links, bytes, profile) {
        Ok((text, outcome)) => match print_all(out, text.as_slice()) {
            Ok(()) => Ok(outcome),
            Err(error) => Err(error),
        },
        Err(error) => Err(error),
    }
}

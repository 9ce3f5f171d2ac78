//! What is told of bytes that are refused.

ghost use Rattle.std.specs.Prelude.{◌≡◌, ◌++◌, ℕ, Option, IfOk, OnOk};
ghost use Rattle.sandbox_report.specs.Faults.{load_offset};
ghost use Rattle.sandbox_inspect.specs.Refusal.{fault_lines, lines_of, LiesIn, name_of, refusal_text};

use crate::places::{function_at, function_name};
use crate::words::{NumberOrNothing, add_name};
use sandbox_report::Fault;
use std::alloc::Global;
use std::io;
use std::io::Write;
use wasm_module::{LoadFault, Profile};

/// The function's name, where there is a function and it has one.
fn name_of(bytes: &[u8], function: Option<u64>) -> &[u8]
    ensures { result.now ≡ name_of bytes.now function }
{
    match function {
        Some(index) => match function_name(bytes, index) {
            Some(name) => name,
            None => &[],
        },
        None => &[],
    }
}

/// The function that a fault at this offset lies in.
fn function_of(
    alloc: Global,
    bytes: &[u8],
    profile: Profile,
    offset: Option<u32>,
) -> io::Result<Option<u64>>
    ensures { IfOk result (LiesIn profile bytes.now offset) }
{
    match offset {
        Some(offset) => function_at(alloc, bytes, profile, offset),
        None => Ok(None),
    }
}

fn wide(number: Option<u32>) -> Option<u64>
    ensures { result ≡ number }
{
    match number {
        Some(number) => Some(u64::from(number)),
        None => None,
    }
}

fn add_lines(
    text: &mut Vec<u8>,
    number: Option<u64>,
    reason: &str,
    offset: Option<u64>,
    function: Option<u64>,
) -> io::Result<()>
    ensures { OnOk result (text.new.items ≡ text.old.items ++ lines_of number reason.now offset
        function) }
{
    write!(
        text,
        "loads:no\nfault:{}\ntext:{}\noffset:{}\nfunction:{}\nname:",
        NumberOrNothing(number),
        reason,
        NumberOrNothing(offset),
        NumberOrNothing(function)
    )
}

fn add_fault_lines(text: &mut Vec<u8>, fault: LoadFault, function: Option<u64>) -> io::Result<()>
    ensures { OnOk result (text.new.items ≡ text.old.items ++ fault_lines fault function) }
{
    let reason = Fault::Module(fault);
    let (number, offset) = (wide(reason.number()), wide(reason.offset()));
    add_lines(text, number, reason.text(), offset, function)
}

/// Adds why the bytes are refused.
pub(crate) fn add_refusal(
    alloc: Global,
    text: &mut Vec<u8>,
    bytes: &[u8],
    profile: Profile,
    fault: LoadFault,
) -> io::Result<()>
    ensures { OnOk result ((f : Option ℕ) × LiesIn profile bytes.now (load_offset fault) f
        × (text.new.items ≡ text.old.items ++ refusal_text bytes.now fault f)) }
{
    let function = function_of(alloc, bytes, profile, Fault::Module(fault).offset())?;
    add_fault_lines(text, fault, function)?;
    add_name(text, name_of(bytes, function))?;
    text.write_all(b"\n")
}

//! What follows an instruction in a module's bytes, found by its opcode alone.

ghost use Rattle.std.specs.Prelude.{◌≡◌, drop};
ghost use Rattle.wasm_valid.specs.internal.Skipping.{after_number, after_numbers};
ghost use Rattle.sandbox_inspect.specs.internal.Skipping.{after_bulk, after_bulk_number, after_instruction, after_labels, after_locals, after_opcode, numbers_behind};

use crate::sections::number;

/// What follows a number in LEB128 (section 5.2.2), or a byte that is none but is below 128.
fn after_number(bytes: &[u8]) -> &[u8]
    ensures { result.now ≡ after_number bytes.now }
{
    let mut left = bytes;
    while let Some((first, rest)) = left.split_first() {
        if *first < 128 {
            return rest;
        }
        left = rest;
    }
    left
}

/// What follows this many numbers.
fn after_numbers(bytes: &[u8], count: usize) -> &[u8]
    ensures { result.now ≡ after_numbers count bytes.now }
{
    let mut left = bytes;
    for _ in 0..count {
        left = after_number(left);
    }
    left
}

/// What follows this many bytes.
fn after_bytes(bytes: &[u8], count: usize) -> &[u8]
    ensures { result.now ≡ drop count bytes.now }
{
    bytes.get(count..).unwrap_or(&[])
}

/// How many numbers and single bytes follow an opcode (section 5.4) that says so alone.
fn numbers_behind(opcode: u8) -> usize
    ensures { result ≡ numbers_behind opcode }
{
    match opcode {
        0x02..=0x04 | 0x0C..=0x0D | 0x10 | 0x20..=0x24 | 0x3F..=0x42 => 1,
        0x11 | 0x28..=0x3E => 2,
        _ => 0,
    }
}

/// What follows the labels of `br_table`: their number, and one more.
fn after_labels(bytes: &[u8]) -> &[u8]
    ensures { result.now ≡ after_labels bytes.now }
{
    match number(bytes) {
        Some((count, labels)) => after_number(after_numbers(labels, count as usize)),
        None => bytes,
    }
}

/// What follows the bytes that this number behind the opcode FC asks for: two of `memory.copy`, one of `memory.fill`, none of a
/// saturating conversion.
fn after_bulk_number(opcode: u32, bytes: &[u8]) -> &[u8]
    ensures { result.now ≡ after_bulk_number opcode bytes.now }
{
    match opcode {
        10 => after_numbers(bytes, 2),
        11 => after_number(bytes),
        _ => bytes,
    }
}

/// What follows the number behind the opcode FC, and the bytes that it asks for.
fn after_bulk(bytes: &[u8]) -> &[u8]
    ensures { result.now ≡ after_bulk bytes.now }
{
    match number(bytes) {
        Some((opcode, rest)) => after_bulk_number(opcode, rest),
        None => bytes,
    }
}

/// What follows the numbers and single bytes behind an opcode, or the bits of a float.
fn after_opcode(opcode: u8, bytes: &[u8]) -> &[u8]
    ensures { result.now ≡ after_opcode opcode bytes.now }
{
    match opcode {
        0x0E => after_labels(bytes),
        0xFC => after_bulk(bytes),
        0x43 => after_bytes(bytes, 4),
        0x44 => after_bytes(bytes, 8),
        _ => after_numbers(bytes, numbers_behind(opcode)),
    }
}

/// What follows an instruction.
pub(crate) fn after_instruction(bytes: &[u8]) -> &[u8]
    ensures { result.now ≡ after_instruction bytes.now }
{
    match bytes.split_first() {
        Some((opcode, rest)) => after_opcode(*opcode, rest),
        None => bytes,
    }
}

/// What follows the locals that a body begins with (section 5.5.13): how many groups there are, and of each a number and the byte
/// of a type.
pub(crate) fn after_locals(bytes: &[u8]) -> &[u8]
    ensures { result.now ≡ after_locals bytes.now }
{
    match number(bytes) {
        Some((groups, locals)) => {
            let groups = groups as usize;
            after_numbers(after_numbers(locals, groups), groups)
        }
        None => bytes,
    }
}

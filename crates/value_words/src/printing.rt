//! The line of a value.

ghost use Rattle.std.specs.Prelude.{◌≡◌, ◌++◌, ◌+◌, ◌<◌, ◌≤◌, ◌^◌, IfOk, OnOk, codes};
ghost use Rattle.value_words.specs.Numbers.{signed_text, value_text};

use arrayvec::ArrayVec;
use std::io;
use std::io::Write;
use wasm_syntax::instruction::ValueType;

/// A line that has room for any value.
pub type ValueLine = ArrayVec<u8, 32>;

/// Adds a number that is one of twice this many, the upper half of which are negative.
fn add_signed(line: &mut ValueLine, half: u64, number: u64) -> io::Result<()>
    requires { (1 ≤ half) × (half ≤ 2 ^ 63) × (number < half + half) }
    ensures { OnOk result (line.new.items ≡ line.old.items ++ signed_text half number) }
{
    if number < half {
        write!(line, "{number}")
    } else {
        let magnitude = half - (number - half);
        write!(line, "-{magnitude}")
    }
}

/// Adds a number of this type, of which only the bits of the type count.
fn add_value(line: &mut ValueLine, value_type: ValueType, number: u64) -> io::Result<()>
    ensures { OnOk result (line.new.items ≡ line.old.items ++ value_text value_type number) }
{
    match value_type {
        ValueType::I32 => add_signed(line, 0x8000_0000, number % 0x1_0000_0000),
        ValueType::I64 => add_signed(line, 0x8000_0000_0000_0000, number),
        ValueType::F32 | ValueType::F64 => write!(line, "0x{number:x}"),
    }
}

/// The line of a number of this type: an integer with its sign, in decimal digits, and of a float its bits, behind 0x in hexadecimal
/// ones. It has room, which no clause says.
pub fn line_of(value_type: ValueType, number: u64) -> io::Result<ValueLine>
    ensures { IfOk result (λ line. line.items ≡ value_text value_type number ++ codes "\n") }
{
    let mut line = ValueLine::new();
    add_value(&mut line, value_type, number)?;
    write!(line, "\n")?;
    Ok(line)
}

//! How names and numbers are printed.

ghost use Rattle.std.specs.Prelude.{◌≡◌, ◌++◌, ◌<◌, ◌∷◌, [], OnOk, Some};
ghost use Rattle.sandbox_inspect.specs.Words.{byte_text, hex_digit, is_plain, name_text, number_or_none, number_text};

use std::io::Write;
use std::{fmt, io};

/// A number, or nothing.
#[derive(Clone, Copy)]
pub(crate) struct NumberOrNothing(pub Option<u64>);

impl fmt::Display for NumberOrNothing {
    ghost output = { λ n. Some (number_text n.0) };

    fn fmt<W: fmt::Write>(&self, f: &mut fmt::Formatter<W>) -> fmt::Result {
        match self.0 {
            Some(number) => write!(f, "{number}"),
            None => Ok(()),
        }
    }
}

/// A number, or that there is none.
#[derive(Clone, Copy)]
pub(crate) struct NumberOrNone(pub Option<u32>);

impl fmt::Display for NumberOrNone {
    ghost output = { λ n. Some (number_or_none n.0) };

    fn fmt<W: fmt::Write>(&self, f: &mut fmt::Formatter<W>) -> fmt::Result {
        match self.0 {
            Some(number) => write!(f, "{number}"),
            None => write!(f, "none"),
        }
    }
}

/// A visible character of ASCII, but no backslash.
fn is_plain(byte: u8) -> bool
    ensures { result ≡ is_plain byte }
{
    32 < byte && byte < 127 && byte != b'\\'
}

/// A digit to the base 16.
fn hex_digit(number: u8) -> u8
    requires { number < 16 }
    ensures { result ≡ hex_digit number }
{
    if number < 10 {
        b'0' + number
    } else {
        87 + number // `a` for 10
    }
}

/// Adds a byte of a name.
fn add_byte(text: &mut Vec<u8>, byte: u8) -> io::Result<()>
    ensures { OnOk result (text.new.items ≡ text.old.items ++ byte_text byte) }
{
    if is_plain(byte) {
        text.extend_from_slice(&[byte])?;
    } else {
        text.extend_from_slice(&[b'\\', hex_digit(byte / 16), hex_digit(byte % 16)])?;
    }
    Ok(())
}

/// Adds a name, so that it has neither blanks nor line breaks.
pub(crate) fn add_name(text: &mut Vec<u8>, name: &[u8]) -> io::Result<()>
    ensures { OnOk result (text.new.items ≡ text.old.items ++ name_text name.now) }
{
    for byte in name {
        add_byte(text, *byte)?;
    }
    Ok(())
}

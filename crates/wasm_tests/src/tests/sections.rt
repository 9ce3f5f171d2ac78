//! What modules in bytes are made of.

use std::alloc::{AllocError, Global};

/// The first bytes of each module.
pub const PREAMBLE: &[u8] = b"\0asm\x01\0\0\0";

/// A module of a type without parameters and of one function of it, up to its code section.
pub const FUNCTION: &[u8] = b"\0asm\x01\0\0\0\x01\x04\x01\x60\x00\x00\x03\x02\x01\x00";

/// A section by its id and its content, under 128 bytes. An empty one isn't there.
pub type Section<'a> = (u8, &'a [u8]);

/// The content of the section with this id, where the list has it.
fn content_of<'a>(sections: &[Section<'a>], id: u8) -> Option<&'a [u8]> {
    for (at, content) in sections {
        if *at == id {
            return Some(content);
        }
    }
    None
}

fn push_section(bytes: &mut Vec<u8>, id: u8, content: &[u8]) -> Result<(), AllocError> {
    if content.is_empty() {
        return Ok(());
    }
    bytes.extend_from_slice(&[id, content.len().min(127) as u8])?;
    bytes.extend_from_slice(content)
}

/// The bytes of a module with its usual sections, but for the others, and for one more.
pub fn spelled<'a>(
    alloc: Global,
    usual: &[Section<'a>],
    others: &[Section<'a>],
    one: Section<'a>,
) -> Result<Vec<u8>, AllocError> {
    let mut bytes = Vec::from_slice(alloc, PREAMBLE)?;
    for id in 1..12 {
        let other = content_of(others, id);
        let usual = content_of(usual, id);
        match other.or(usual) {
            _ if id == one.0 => push_section(&mut bytes, id, one.1)?,
            Some(content) => push_section(&mut bytes, id, content)?,
            None => {}
        }
    }
    Ok(bytes)
}

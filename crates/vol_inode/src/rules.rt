//! The rules on one entry.

ghost use Rattle.std.specs.Prelude.{◌≡◌, ◌<◌, ◌↔◌, All, IsTrue};
ghost use Rattle.vol_inode.specs.Entry.{HasName, HasSize, UnusedPointersAreZero, KeepsRules, first_block_of_pointer};

use crate::names::is_name;
use crate::pointers::{DOUBLE_INDIRECT, LISTED, TRIPLE_INDIRECT, TWICE_LISTED};
use crate::{Entry, Kind, Version};
use vol_sector::Rule;

/// Whether the entry keeps the rules that its own sector shows.
pub fn keeps_rules(version: Version, entry: &Entry) -> bool
    ensures { IsTrue result ↔ KeepsRules version entry.now }
{
    has_name(entry)
        && has_zeros(&entry.name[entry.name_length as usize..])
        && has_size(version, entry)
        && unused_pointers_are_zero(entry)
}

/// The first rule that an entry breaks; where it keeps those of its fields, a byte between them isn't zero. In versions
/// 1 and 2 the last pointer counts as such bytes, since no file is long enough for it.
pub fn broken_by(version: Version, entry: &Entry) -> Rule {
    if !has_name(entry) && entry.parent == 0 {
        return Rule::Root;
    }
    if !has_name(entry) {
        return Rule::Name;
    }
    if !has_size(version, entry) {
        return Rule::Size;
    }
    let mut known = *entry;
    if version != Version::Four {
        known.pointers[TRIPLE_INDIRECT as usize] = 0;
    }
    if !unused_pointers_are_zero(&known) {
        return Rule::PointerPastSize;
    }
    Rule::Zeros
}

/// Whether the name is right.
fn has_name(entry: &Entry) -> bool
    ensures { IsTrue result ↔ HasName entry.now }
{
    if entry.parent == 0 {
        entry.kind == Kind::Directory && entry.name_length == 0
    } else {
        is_name(&entry.name[..entry.name_length as usize])
    }
}

/// Whether the bytes are zeros.
fn has_zeros(bytes: &[u8]) -> bool
    ensures { IsTrue result ↔ All (λ b. b ≡ 0) bytes.now }
{
    bytes.iter().all(|byte| *byte == 0)
}

/// Whether the size is right.
fn has_size(version: Version, entry: &Entry) -> bool
    ensures { IsTrue result ↔ HasSize version entry.now }
{
    match entry.kind {
        Kind::Directory => entry.size == 0,
        Kind::File => entry.size <= version.size_limit(),
    }
}

/// Whether no pointer is set past the size.
fn unused_pointers_are_zero(entry: &Entry) -> bool
    ensures { IsTrue result ↔ UnusedPointersAreZero entry.now }
{
    let count = entry.size.div_ceil(512);
    for (k, pointer) in entry.pointers.iter().enumerate() {
        if *pointer != 0 && count <= first_block_of_pointer(k) {
            return false;
        }
    }
    true
}

/// The first data block of a file that the pointer serves.
pub fn first_block_of_pointer(k: usize) -> u32
    requires { k < 61 }
    ensures { result ≡ first_block_of_pointer k }
{
    if k < DOUBLE_INDIRECT as usize {
        k as u32
    } else if k < TRIPLE_INDIRECT as usize {
        LISTED
    } else {
        TWICE_LISTED
    }
}

//! Lists, names and bytes, each with where it stands in the input.

use std::alloc::Global;
use std::marker::Model;

/// Values in a row, as a vector of the binary format has them.
#[derive(Drop)]
pub struct Items<T> {
    items: Vec<T>,
    offset: u32,
}

impl<T> Model for Items<T> {
    ghost use Rattle.std.specs.Prelude.{List};

    ghost Value = { List T };

    ghost view = { λ v. v.items.items };
}

impl<T> Items<T> {
    ghost use Rattle.std.specs.Prelude.{◌≡◌, ◌==◌, [], length};

    /// The values of a list that begins at this offset of the input.
    pub fn from_vec(items: Vec<T>, offset: u32) -> Items<T>
        ensures { result ≡ items.items }
    {
        Items { items, offset }
    }

    /// No values, of a list that isn't there.
    pub fn new(alloc: Global) -> Items<T>
        ensures { result ≡ [] }
    {
        Items {
            items: Vec::new(alloc),
            offset: 0,
        }
    }

    pub fn len(&self) -> usize
        ensures { result ≡ length self.now }
    {
        self.items.len()
    }

    pub fn is_empty(&self) -> bool
        ensures { result ≡ (length self.now == 0) }
    {
        self.items.is_empty()
    }

    pub fn as_slice(&self) -> &[T]
        ensures { result.now ≡ self.now }
    {
        self.items.as_slice()
    }

    /// Where the list begins, in bytes from the first of the input; 0 where it isn't there.
    pub fn offset(&self) -> u32 {
        self.offset
    }
}

/// A name (section 5.2.4), borrowed from the input.
#[derive(Drop)]
pub struct Name<'a> {
    text: &'a str,
}

impl<'a> Model for Name<'a> {
    ghost use Rattle.std.specs.Prelude.{ℕ, List};

    ghost Value = { List ℕ };

    ghost view = { λ n. n.text.now };
}

impl<'a> Name<'a> {
    ghost use Rattle.std.specs.Prelude.{◌≡◌};

    pub fn new(text: &'a str) -> Name<'a>
        ensures { result ≡ text.now }
    {
        Name { text }
    }

    pub fn as_str(&self) -> &'a str
        ensures { result.now ≡ self.now }
    {
        self.text
    }
}

/// Bytes, borrowed from the input.
#[derive(Drop)]
pub struct Bytes<'a> {
    bytes: &'a [u8],
    offset: u32,
}

impl<'a> Model for Bytes<'a> {
    ghost use Rattle.std.specs.Prelude.{ℕ, List};

    ghost Value = { List ℕ };

    ghost view = { λ n. n.bytes.now };
}

impl<'a> Bytes<'a> {
    ghost use Rattle.std.specs.Prelude.{◌≡◌};

    /// These bytes, which begin at this offset of the input.
    pub fn new(bytes: &'a [u8], offset: u32) -> Bytes<'a>
        ensures { result ≡ bytes.now }
    {
        Bytes { bytes, offset }
    }

    pub fn as_slice(&self) -> &'a [u8]
        ensures { result.now ≡ self.now }
    {
        self.bytes
    }

    /// Where they begin, in bytes from the first of the input.
    pub fn offset(&self) -> u32 {
        self.offset
    }
}

//! Bytes to be written, in one slice or in several spans of a memory.

ghost use Rattle.std.specs.Prelude.{◌≡◌, ◌≤◌, ◌<◌, ◌-◌, ◌+◌, ◌==◌, ◌++◌, min, length, take, drop};
ghost use Rattle.vol_body.specs.Source.{gathered, AreInside};

use std::marker::Model;

/// A part of a memory: an address and a length in bytes.
#[derive(Clone, Copy)]
pub struct MemorySpan {
    pub pointer: u32,
    pub len: u32,
}

/// Bytes to be written, which every contract sees as a list. They stand in a slice, and then in
/// spans of a memory, one after the other.
#[derive(Drop)]
pub struct Source<'a> {
    first: &'a [u8],
    memory: &'a [u8],
    spans: &'a [MemorySpan],
    /// How many bytes there are. More may stand there.
    len: usize,
}

impl<'a> Model for Source<'a> {
    ghost use Rattle.std.specs.Prelude.{ℕ, List};

    ghost Value = { List ℕ };

    ghost use Rattle.std.specs.Prelude.{◌≤◌, ◌++◌, length, take};
    ghost use Rattle.vol_body.specs.Source.{gathered, AreInside};

    ghost view = { λ s. take s.len (s.first.now ++ gathered s.memory.now s.spans.now) };

    ghost invariant = { λ s. (s.len ≤ length (s.first.now ++ gathered s.memory.now s.spans.now))
        × AreInside s.memory.now s.spans.now };
}

impl<'a> Source<'a> {
    /// The bytes of a slice.
    pub fn of(bytes: &'a [u8]) -> Source<'a>
        ensures { result ≡ bytes.now }
    {
        Source {
            first: bytes,
            memory: &[],
            spans: &[],
            len: bytes.len(),
        }
    }

    /// The first bytes of those in the spans of a memory.
    pub fn gather(memory: &'a [u8], spans: &'a [MemorySpan], len: usize) -> Source<'a>
        requires inside { AreInside memory.now spans.now }
        requires enough { len ≤ length (gathered memory.now spans.now) }
        ensures { result ≡ take len (gathered memory.now spans.now) }
    {
        Source {
            first: &[],
            memory,
            spans,
            len,
        }
    }

    /// How many bytes there are.
    pub fn len(&self) -> usize
        ensures { result ≡ length self.now }
    {
        self.len
    }

    /// Whether there are no bytes.
    pub fn is_empty(&self) -> bool
        ensures { result ≡ (length self.now == 0) }
    {
        self.len() == 0
    }

    /// What is left after this many bytes.
    pub(crate) fn after(&self, count: usize) -> Source<'a>
        ensures { result ≡ drop count self.now }
    {
        let count = count.min(self.len);
        let rest = skip(self.memory, self.first, self.spans, count);
        Source {
            first: rest.first,
            memory: self.memory,
            spans: rest.spans,
            len: self.len - count,
        }
    }

    /// Copies the next bytes into the buffer, which they fill. They are left out from then on.
    pub(crate) fn read(&mut self, into: &mut [u8])
        requires { length into.old ≤ length self.old }
        ensures bytes { into.new ≡ take (length into.old) self.old }
        ensures rest { self.new ≡ drop (length into.old) self.old }
    {
        let rest = fill(into, self.memory, self.first, self.spans);
        self.first = rest.first;
        self.spans = rest.spans;
        self.len -= into.len();
    }
}

/// What is left of a slice and of spans.
#[derive(Drop)]
struct Rest<'a> {
    first: &'a [u8],
    spans: &'a [MemorySpan],
}

/// The bytes of the first of the spans.
fn first_span<'a>(memory: &'a [u8], spans: &[MemorySpan]) -> &'a [u8]
    requires inside { AreInside memory.now spans.now }
    requires some { 0 < length spans.now }
    ensures bytes { gathered memory.now spans.now
        ≡ result.now ++ gathered memory.now (drop 1 spans.now) }
    ensures inside { AreInside memory.now (drop 1 spans.now) }
{
    let span = spans[0];
    let start = span.pointer as usize;
    &memory[start..start + span.len as usize]
}

/// Copies as many of the bytes as there is room for into the buffer, from a position on, and says
/// how many.
fn copy_some(into: &mut [u8], position: usize, bytes: &[u8]) -> usize
    requires { position ≤ length into.old }
    ensures count { result ≡ min (length bytes.now) (length into.old - position) }
    ensures bytes { take (position + result) into.new
        ≡ take position into.old ++ take result bytes.now }
{
    let count = bytes.len().min(into.len() - position);
    into[position..position + count].copy_from_slice(&bytes[..count]);
    count
}

/// Leaves out the first bytes of a slice and of spans.
fn skip<'a>(memory: &'a [u8], first: &'a [u8], spans: &'a [MemorySpan], count: usize) -> Rest<'a>
    requires inside { AreInside memory.now spans.now }
    requires enough { count ≤ length (first.now ++ gathered memory.now spans.now) }
    ensures rest { result.first.now ++ gathered memory.now result.spans.now
        ≡ drop count (first.now ++ gathered memory.now spans.now) }
    ensures inside { AreInside memory.now result.spans.now }
{
    let mut first = first;
    let mut spans = spans;
    let mut left = count;
    while first.len() < left {
        left -= first.len();
        first = first_span(memory, spans);
        spans = &spans[1..];
    }
    Rest {
        first: &first[left..],
        spans,
    }
}

/// Fills the buffer with the first bytes of a slice and of spans, and says what is left.
fn fill<'a>(into: &mut [u8], memory: &'a [u8], first: &'a [u8], spans: &'a [MemorySpan]) -> Rest<'a>
    requires inside { AreInside memory.now spans.now }
    requires enough { length into.old ≤ length (first.now ++ gathered memory.now spans.now) }
    ensures bytes { into.new
        ≡ take (length into.old) (first.now ++ gathered memory.now spans.now) }
    ensures rest { result.first.now ++ gathered memory.now result.spans.now
        ≡ drop (length into.old) (first.now ++ gathered memory.now spans.now) }
    ensures inside { AreInside memory.now result.spans.now }
{
    let mut first = first;
    let mut spans = spans;
    let mut taken = copy_some(into, 0, first);
    let mut filled = taken;
    while filled < into.len() {
        first = first_span(memory, spans);
        spans = &spans[1..];
        taken = copy_some(into, filled, first);
        filled += taken;
    }
    Rest {
        first: &first[taken..],
        spans,
    }
}

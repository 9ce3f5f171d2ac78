//! Memory as it stands, to be read.

use std::marker::Model;

/// The bytes of a guest's memory as they stand (section 4.2.8), of which a first part can be lent; what stands behind the part
/// are zeros.
#[derive(Drop)]
pub struct Shown<'m> {
    /// The first part.
    first: &'m [u8],
    /// How many bytes there are in all.
    size: usize,
}

impl<'m> Model for Shown<'m> {
    ghost use Rattle.std.specs.Prelude.{◌≤◌, length};
    ghost use Rattle.wasm_store.specs.Bytes.{ShownMemory, filled};

    ghost Value = { ShownMemory };

    ghost view = { λ s. record { bytes = filled s.size s.first.now; lent = length s.first.now } };

    ghost invariant = { λ s. length s.first.now ≤ s.size };
}

impl<'m> Shown<'m> {
    ghost use Rattle.std.specs.Prelude.{◌≡◌, ◌+◌, ◌<◌, ◌≤◌, length, IfSome, IfNone, take};
    ghost use Rattle.wasm_store.specs.Bytes.{bytes_at, filled};

    /// Memory of this size, whose first part this is.
    pub fn new(first: &'m [u8], size: usize) -> Shown<'m>
        requires { length first.now ≤ size }
        ensures bytes { result.bytes ≡ filled size first.now }
        ensures lent { result.lent ≡ length first.now }
    {
        Shown { first, size }
    }

    /// How many bytes there are.
    pub fn len(&self) -> usize
        ensures { result ≡ length self.now.bytes }
    {
        self.size
    }

    /// The first part.
    pub fn first(&self) -> &'m [u8]
        ensures value { result.now ≡ take self.now.lent self.now.bytes }
        ensures len { length result.now ≡ self.now.lent }
    {
        self.first
    }

    /// This many bytes from an address, where they are in memory. They have to be in the first part then.
    pub fn slice(&self, address: u32, len: u32) -> Option<&'m [u8]>
        requires { address + len ≤ length self.now.bytes → address + len ≤ self.now.lent }
        ensures inside { IfSome result (λ s. (address + len ≤ length self.now.bytes)
            × (s.now ≡ bytes_at self.now.bytes address len)) }
        ensures outside { IfNone result (length self.now.bytes < address + len) }
    {
        let (start, end) = (address as usize, address as usize + len as usize);
        self.first.get(start..end)
    }
}

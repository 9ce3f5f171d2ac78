//! What a guest writes, kept in memory up to a bound.

ghost use Rattle.std.specs.Prelude.{◌≡◌, ◌+◌, ◌-◌, ◌<◌, ◌≤◌, ◌⊎◌, Some, [], true, false, length, min, max};
ghost use Rattle.std.specs.Prelude.{IfOk, OnOk, IsErr, vec_len, vec_capacity};
ghost use Rattle.std.specs.Io.{WritesAtMost};
ghost use Rattle.std.specs.Io.KnownBytes.{Keeps, WriteAppends};

use std::alloc::{AllocError, Global};
use std::io;
use std::io::{ErrorKind, Write};
use stream_answers::Outlet;

/// Bytes, as many as are allowed at most. What would be more is refused, so that the guest is answered errno 29 then and
/// ever after.
#[derive(Drop)]
pub struct KeptOutput {
    pub(crate) bytes: Vec<u8>,
    pub(crate) most: u64,
    /// Whether a write was refused since there were as many as are allowed.
    pub(crate) full: bool,
    ghost within: { length bytes.items ≤ most },
    ghost filled: { full ≡ true → length bytes.items ≡ most },
}

/// Makes room for this many bytes more: twofold, so that growth is rare, but never past the most that are kept.
fn widen(bytes: &mut Vec<u8>, more: usize, most: u64) -> Result<(), AllocError>
    requires { vec_len bytes.old + more ≤ most }
    ensures made { OnOk result (vec_len bytes.new + more ≤ vec_capacity bytes.new) }
    ensures bound { vec_capacity bytes.new ≤ max (vec_capacity bytes.old) most }
    ensures items { bytes.new.items ≡ bytes.old.items }
{
    let len = bytes.len();
    let capacity = bytes.capacity();
    if more <= capacity - len {
        return Ok(());
    }
    let twice = capacity.saturating_mul(2).max(len + more) as u64;
    bytes.reserve_exact(twice.min(most) as usize - len)
}

impl KeptOutput {
    /// No bytes yet, and this many at most.
    pub(crate) fn new(alloc: Global, most: u64) -> KeptOutput
        ensures none { result.bytes.items ≡ [] }
        ensures most { result.most ≡ most }
        ensures begins { result.full ≡ false }
    {
        KeptOutput {
            bytes: Vec::new(alloc),
            most,
            full: false,
        }
    }

    /// How many more it takes of so many.
    fn room_for(&self, count: usize) -> usize
        ensures { result ≡ min count (self.now.most - length self.now.bytes.items) }
    {
        let room = self.most - self.bytes.len() as u64;
        if room < count as u64 {
            room as usize
        } else {
            count
        }
    }
}

impl Write for KeptOutput {
    ghost contents = { λ k. Some k.bytes.items };

    fn write(&mut self, buf: &[u8]) -> io::Result<usize>
        ensures bound { WritesAtMost result buf.now }
        ensures bytes { WriteAppends (Some self.old.bytes.items) (Some self.new.bytes.items) result
            buf.now }
        ensures most { self.new.most ≡ self.old.most }

        // All that there is room for is taken.
        ensures takes { IfOk result (λ n. n ≡ min (length buf.now)
            (self.old.most - length self.old.bytes.items)) }

        // It is full exactly where a write was refused for want of room, then and ever after.
        ensures refused { length self.old.bytes.items ≡ self.old.most → 0 < length buf.now
            → IsErr result × (self.new.full ≡ true) }
        ensures else_same { (length self.old.bytes.items < self.old.most) ⊎ (length buf.now ≡ 0)
            → self.new.full ≡ self.old.full }
        ensures stays { self.old.full ≡ true → self.new.full ≡ true }
    {
        let room = self.room_for(buf.len());
        if room == 0 && !buf.is_empty() {
            self.full = true;
            return Err(io::Error::from(ErrorKind::WriteZero));
        }
        widen(&mut self.bytes, room, self.most)?;
        self.bytes.write(&buf[..room])
    }

    fn flush(&mut self) -> io::Result<()>
        ensures bytes { Keeps (Some self.old.bytes.items) (Some self.new.bytes.items) }
        ensures same { self.new ≡ self.old }
    {
        Ok(())
    }
}

impl Outlet for KeptOutput {
    ghost use Rattle.std.specs.Prelude.{◌++◌};

    ghost took = { λ before bytes after. after.bytes.items ≡ before.bytes.items ++ bytes };

    // as many are kept as are allowed, or memory was refused
    ghost refused = { λ before after. after.bytes.items ≡ before.bytes.items };

    ghost flushed = { λ before after. after ≡ before };

    ghost refuses = { λ before after. ⊥ };

    fn try_write(&mut self, buf: &[u8]) -> io::Result<usize> {
        self.write(buf)
    }

    fn try_flush(&mut self) -> bool {
        true
    }
}

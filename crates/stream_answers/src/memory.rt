//! Bytes in memory as streams.

use crate::inlet::Inlet;
use crate::outlet::Outlet;
use std::alloc::Allocator;
use std::io;
use std::io::{Read, Write};

impl Inlet for &[u8] {
    ghost use Rattle.std.specs.Prelude.{◌≡◌, ◌++◌};

    ghost gave = { λ before bytes after. before.now ≡ bytes ++ after.now };

    ghost refused = { λ before after. ⊥ };

    fn try_read(&mut self, buf: &mut [u8]) -> io::Result<usize> {
        self.read(buf)
    }
}

impl<A: Allocator> Outlet for Vec<u8, A> {
    ghost use Rattle.std.specs.Prelude.{◌≡◌, ◌++◌};

    ghost took = { λ before bytes after. after.items ≡ before.items ++ bytes };

    ghost refused = { λ before after. after.items ≡ before.items };

    ghost flushed = { λ before after. after.items ≡ before.items };

    ghost refuses = { λ before after. ⊥ };

    fn try_write(&mut self, buf: &[u8]) -> io::Result<usize> {
        self.write(buf)
    }

    fn try_flush(&mut self) -> bool {
        true
    }
}

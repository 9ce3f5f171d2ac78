//! Streams that are lent.

use crate::inlet::Inlet;
use crate::outlet::Outlet;
use std::io;

impl<R: Inlet> Inlet for &mut R {
    ghost gave = { λ before bytes after. R.gave before.now bytes after.now };

    ghost refused = { λ before after. R.refused before.now after.now };

    fn try_read(&mut self, buf: &mut [u8]) -> io::Result<usize> {
        (**self).try_read(buf)
    }
}

impl<W: Outlet> Outlet for &mut W {
    ghost took = { λ before bytes after. W.took before.now bytes after.now };

    ghost refused = { λ before after. W.refused before.now after.now };

    ghost flushed = { λ before after. W.flushed before.now after.now };

    ghost refuses = { λ before after. W.refuses before.now after.now };

    fn try_write(&mut self, buf: &[u8]) -> io::Result<usize> {
        (**self).try_write(buf)
    }

    fn try_flush(&mut self) -> bool {
        (**self).try_flush()
    }
}

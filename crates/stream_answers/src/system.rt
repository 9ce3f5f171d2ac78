//! Streams of the system.

ghost use Rattle.stream_answers.specs.System.{HasRefused, WasFlushed, WasGiven, WasTaken};

use crate::inlet::Inlet;
use crate::outlet::Outlet;
use std::fs::File;
use std::io;
use std::io::{Print, Printer, Read, Stderr, StdinLock, Write};

impl Inlet for File {
    ghost gave = { λ before bytes after. WasGiven before bytes after };

    ghost refused = { λ before after. HasRefused before after };

    fn try_read(&mut self, buf: &mut [u8]) -> io::Result<usize> {
        self.read(buf)
    }
}

impl Inlet for StdinLock<'static> {
    ghost gave = { λ before bytes after. WasGiven before bytes after };

    ghost refused = { λ before after. HasRefused before after };

    fn try_read(&mut self, buf: &mut [u8]) -> io::Result<usize> {
        self.read(buf)
    }
}

impl<P: Print> Outlet for Printer<'_, P> {
    ghost took = { λ before bytes after. WasTaken before bytes after };

    ghost refused = { λ before after. HasRefused before after };

    ghost flushed = { λ before after. WasFlushed before after };

    ghost refuses = { λ before after. HasRefused before after };

    fn try_write(&mut self, buf: &[u8]) -> io::Result<usize> {
        self.write(buf)
    }

    fn try_flush(&mut self) -> bool {
        self.flush().is_ok()
    }
}

impl Outlet for Stderr {
    ghost took = { λ before bytes after. WasTaken before bytes after };

    ghost refused = { λ before after. HasRefused before after };

    ghost flushed = { λ before after. WasFlushed before after };

    ghost refuses = { λ before after. HasRefused before after };

    fn try_write(&mut self, buf: &[u8]) -> io::Result<usize> {
        self.write(buf)
    }

    fn try_flush(&mut self) -> bool {
        self.flush().is_ok()
    }
}

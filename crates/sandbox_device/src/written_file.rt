//! A file that is written from its beginning, by the calls that an output makes of it.

ghost use Rattle.std.specs.Prelude.{ℕ, List, MatchResult, OnErr, Option, take};
ghost use Rattle.std.specs.Io.{WritesAtMost};
ghost use Rattle.sandbox_device.specs.FileEvidence.{WasRefused};
ghost use Rattle.sandbox_device.specs.declared.identity.Identity.{Identity as IdentityValue};

use crate::identity::{Identity, is_regular};
use std::fs::{File, TryLockError};
use std::io;
use std::io::{ErrorKind, Write};

/// What an output needs of a file, and no more.
///
/// What became of the file is known by evidence alone: a caller that is proved for all files can show only by a call which succeeded
/// that the file was locked or cut, that bytes were written to it, and that they were flushed, and only by one which failed that it
/// refused. As long as no such call was made, the file is as it was.
pub trait WrittenFile {
    /// The file was locked, if it has a lock.
    ghost locked: { Self → Type 0 };

    /// It was found to be this regular file, or none.
    ghost identified: { Self → Option IdentityValue → Type 0 };

    /// Between these states it was cut to nothing, if it has a length.
    ghost cut: { Self → Self → Type 0 };

    /// Between these states these bytes were written behind those before.
    ghost wrote: { Self → List ℕ → Self → Type 0 };

    /// Between these states what was written was flushed.
    ghost flushed: { Self → Self → Type 0 };

    /// Between these states a call failed.
    ghost refused: { Self → Self → Type 0 };

    /// Takes its lock. It fails where another use of the file has it.
    fn take_write_lock(&self) -> io::Result<()>
        ensures { MatchResult result (λ _. locked self.now) (λ _. refused self.now self.now) };

    /// Which file it is, if it is a regular one.
    fn which(&self) -> io::Result<Option<Identity>>
        ensures { MatchResult result (λ it. identified self.now it) (λ _. refused self.now self.now) };

    /// Cuts it to nothing. What has no length, as a pipe or a terminal, stays as it is.
    fn cut_to_nothing(&mut self) -> io::Result<()>
        ensures { MatchResult result (λ _. cut self.old self.new) (λ _. refused self.old self.new) };

    /// Writes bytes, and gives how many.
    fn put(&mut self, bytes: &[u8]) -> io::Result<usize>
        ensures bound { WritesAtMost result bytes.now }
        ensures told { MatchResult result (λ n. wrote self.old (take n bytes.now) self.new)
            (λ _. refused self.old self.new) };

    /// Flushes what was written.
    fn flush_all(&mut self) -> io::Result<()>
        ensures { MatchResult result (λ _. flushed self.old self.new) (λ _. refused self.old self.new) };
}

impl WrittenFile for File {
    ghost use Rattle.sandbox_device.specs.FileEvidence.{WasRefused};
    ghost use Rattle.sandbox_device.specs.Named.{HasIdentity};
    ghost use Rattle.sandbox_device.specs.Written.{WasCut, WasFlushed, WasLockedToWrite, WasPut};

    ghost locked = { WasLockedToWrite };

    ghost identified = { HasIdentity };

    ghost cut = { WasCut };

    ghost wrote = { WasPut };

    ghost flushed = { WasFlushed };

    ghost refused = { WasRefused };

    fn take_write_lock(&self) -> io::Result<()> {
        lock_to_write(self)
    }

    fn which(&self) -> io::Result<Option<Identity>> {
        Identity::of(self)
    }

    fn cut_to_nothing(&mut self) -> io::Result<()> {
        cut(self)
    }

    fn put(&mut self, bytes: &[u8]) -> io::Result<usize> {
        self.write(bytes)
    }

    fn flush_all(&mut self) -> io::Result<()> {
        self.flush()
    }
}

/// Cuts a file to nothing. What has no length, as a pipe or a terminal, stays as it is.
fn cut(file: &File) -> io::Result<()> {
    if is_regular(file)? {
        file.set_len(0)?;
    }
    Ok(())
}

/// Locks a file that is to be written. It is refused where another use of it has locked it; a pipe, a terminal or a device has
/// no lock, and a file system that knows none refuses nothing.
pub(crate) fn lock_to_write(file: &File) -> io::Result<()>
    ensures { OnErr result (WasRefused file.now file.now) }
{
    if !is_regular(file)? {
        return Ok(());
    }
    match file.try_lock() {
        Err(TryLockError::WouldBlock) => Err(io::Error::from(ErrorKind::WouldBlock)),
        _ => Ok(()),
    }
}

//! Bytes that are handed over one piece after another.

ghost use Rattle.std.specs.Prelude.{◌≡◌, ◌≤◌, ℕ, [], Some, IfOk, IfErr, MatchResult, drop, false, length, min, take, true, vec_len};
ghost use Rattle.std.specs.Io.{ReadsAtMost};
ghost use Rattle.std.specs.Io.KnownBytes.{ReadConsumes};
ghost use Rattle.fed_input.specs.Feeding.{Gave, IsNotFed, Starves, fed, left_of};

use std::alloc::Global;
use std::io;
use std::io::{ErrorKind, Read};
use std::marker::Model;
use stream_answers::Inlet;

/// Why bytes aren't taken. The input is as it was.
#[derive(Clone, Copy, Debug, PartialEq, Eq)]
pub enum NotFed {
    /// It was said that no more come.
    Ended,
    Memory,
}

/// The input of a guest whose host hands it over one piece after another, until it says that no more come.
#[derive(Drop)]
pub struct FedInput {
    bytes: Vec<u8>,
    /// How many of them were read.
    read: usize,
    ended: bool,
}

impl Model for FedInput {
    ghost use Rattle.std.specs.Prelude.{◌≤◌, drop, vec_len};
    ghost use Rattle.fed_input.specs.Feeding.{Fed};

    ghost Value = { Fed };

    ghost view = { λ f. record { bytes = drop f.read f.bytes.items; ended = f.ended } };

    ghost invariant = { λ f. f.read ≤ vec_len f.bytes };
}

impl FedInput {
    /// Nothing is there yet, and it goes on.
    pub fn new(alloc: Global) -> FedInput
        ensures { result ≡ record { bytes = []; ended = false } }
    {
        FedInput {
            bytes: Vec::new(alloc),
            read: 0,
            ended: false,
        }
    }

    /// How many bytes are there that weren't read yet.
    pub fn held(&self) -> usize
        ensures { result ≡ length self.now.bytes }
    {
        self.bytes.len() - self.read
    }

    /// Whether no more come.
    pub fn has_ended(&self) -> bool
        ensures { result ≡ self.now.ended }
    {
        self.ended
    }

    /// Hands over bytes behind those that are there.
    pub fn feed(&mut self, bytes: &[u8]) -> Result<(), NotFed>
        ensures fed { IfOk result (λ _. (self.old.ended ≡ false)
            × (self.new ≡ fed bytes.now self.old)) }
        ensures refused { IfErr result (λ e. (self.new ≡ self.old) × IsNotFed self.old e) }
    {
        if self.ended {
            return Err(NotFed::Ended);
        }
        if self.read == self.bytes.len() {
            self.bytes.truncate(0);
            self.read = 0;
        }
        match self.bytes.extend_from_slice(bytes) {
            Ok(()) => Ok(()),
            Err(_) => Err(NotFed::Memory),
        }
    }

    /// Says that no more bytes come.
    pub fn end(&mut self)
        ensures { self.new ≡ record { bytes = self.old.bytes; ended = true } }
    {
        self.ended = true;
    }

    /// Gives as many bytes as there are and as find room.
    fn give(&mut self, buf: &mut [u8]) -> usize
        ensures count { result ≡ min (length self.old.bytes) (length buf.new) }
        ensures gave { Gave self.old (take result buf.new) self.new }
    {
        let left = &self.bytes.as_slice()[self.read..];
        let count = left.len().min(buf.len());
        buf[..count].copy_from_slice(&left[..count]);
        self.read += count;
        count
    }
}

impl Read for FedInput {
    ghost remaining = { λ f. Some (left_of f) };

    /// Where it goes on and nothing is there, it refuses rather than to end.
    fn read(&mut self, buf: &mut [u8]) -> io::Result<usize>
        ensures bound { ReadsAtMost result buf.new }
        ensures bytes { ReadConsumes (Some (left_of self.old)) (Some (left_of self.new)) result
            buf.new }
        ensures told { MatchResult result (λ n. Gave self.old (take n buf.new) self.new)
            (λ _. Starves self.old self.new) }
    {
        if self.held() == 0 && !self.ended {
            return Err(io::Error::from(ErrorKind::WouldBlock));
        }
        Ok(self.give(buf))
    }
}

impl Inlet for FedInput {
    ghost gave = { λ before bytes after. Gave before bytes after };

    ghost refused = { λ before after. Starves before after };

    fn try_read(&mut self, buf: &mut [u8]) -> io::Result<usize> {
        self.read(buf)
    }
}

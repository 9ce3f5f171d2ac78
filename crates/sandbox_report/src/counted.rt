//! Streams whose bytes are counted, and bounded.

ghost use Rattle.std.specs.Prelude.{◌≡◌, ◌≤◌, ◌<◌, ◌-◌, ◌^◌, IsErr, length, take, min, max, false};
ghost use Rattle.std.specs.Io.{ReadsAtMost, WritesAtMost};
ghost use Rattle.std.specs.Io.KnownBytes.{Keeps, ReadConsumes, WriteAppends};
ghost use Rattle.sandbox_report.specs.Counting.{Counts, failed_after, failed_after_write, is_full_after};

use std::io;
use std::io::{ErrorKind, Read, Write};
use stream_answers::{Inlet, Outlet};

/// A stream, and how many bytes it gave or took. The count stops at `u64::MAX`.
#[derive(Drop)]
pub struct Counted<S> {
    pub stream: S,
    pub count: u64,
    /// How many bytes it takes at most.
    pub most: u64,
    /// Whether a write was refused since it takes no more.
    pub full: bool,
    /// Whether the stream itself refused a read or a write.
    pub failed: bool,
}

impl<S> Counted<S> {
    /// A stream that is counted from here on, and takes so many bytes at most.
    pub fn new(stream: S, most: u64) -> Counted<S>
        ensures { result ≡ record {
          stream = stream;
          count = 0;
          most = most;
          full = false;
          failed =
              false;
        } }
    {
        Counted {
            stream,
            count: 0,
            most,
            full: false,
            failed: false,
        }
    }

    /// Counts the bytes that were moved, or notes that the stream failed.
    fn note(&mut self, moved: io::Result<usize>) -> io::Result<usize>
        ensures result { result ≡ moved }
        ensures count { Counts self.old.count self.new.count moved }
        ensures failed { self.new.failed ≡ failed_after self.old.failed moved }
        ensures rest { (self.new.stream ≡ self.old.stream) × (self.new.most ≡ self.old.most)
            × (self.new.full ≡ self.old.full) }
    {
        match &moved {
            Ok(count) => self.count = self.count.saturating_add(*count as u64),
            Err(_) => self.failed = true,
        }
        moved
    }
}

/// As many of these bytes as there is room for.
fn fitting(buf: &[u8], room: u64) -> &[u8]
    ensures { result.now ≡ take (min (length buf.now) room) buf.now }
{
    match usize::try_from(room) {
        Ok(room) if room < buf.len() => &buf[..room],
        _ => buf,
    }
}

impl<R: Read> Read for Counted<R> {
    ghost remaining = { λ c. R.remaining c.stream };

    fn read(&mut self, buf: &mut [u8]) -> io::Result<usize>
        ensures bound { ReadsAtMost result buf.new }
        ensures bytes { ReadConsumes (R.remaining self.old.stream) (R.remaining self.new.stream)
            result buf.new }
        ensures count { Counts self.old.count self.new.count result }
        ensures failed { self.new.failed ≡ failed_after self.old.failed result }
        ensures bounds { (self.new.most ≡ self.old.most) × (self.new.full ≡ self.old.full) }
    {
        let moved = self.stream.read(buf);
        self.note(moved)
    }
}

impl<W: Write> Write for Counted<W> {
    ghost contents = { λ c. W.contents c.stream };

    fn write(&mut self, buf: &[u8]) -> io::Result<usize>
        ensures bound { WritesAtMost result buf.now }
        ensures bytes { WriteAppends (W.contents self.old.stream) (W.contents self.new.stream)
            result buf.now }
        ensures count { Counts self.old.count self.new.count result }
        ensures within { self.new.count ≤ max self.old.count self.old.most }
        ensures refused { self.old.most ≤ self.old.count → 0 < length buf.now → IsErr result
            × (self.new.stream ≡ self.old.stream) }
        ensures full { self.new.full ≡ is_full_after self.old.full (self.old.most - self.old.count)
            (length buf.now) }
        ensures failed { self.new.failed ≡ failed_after_write self.old.failed
            (self.old.most - self.old.count) (length buf.now) result }
        ensures most { self.new.most ≡ self.old.most }
    {
        let room = self.most.saturating_sub(self.count);
        if room == 0 && !buf.is_empty() {
            self.full = true;
            return Err(io::Error::from(ErrorKind::WriteZero));
        }
        let moved = self.stream.write(fitting(buf, room));
        self.note(moved)
    }

    fn flush(&mut self) -> io::Result<()>
        ensures bytes { Keeps (W.contents self.old.stream) (W.contents self.new.stream) }
        ensures rest { (self.new.count ≡ self.old.count) × (self.new.most ≡ self.old.most)
            × (self.new.full ≡ self.old.full) × (self.new.failed ≡ self.old.failed) }
    {
        self.stream.flush()
    }
}

impl<R: Inlet> Inlet for Counted<R> {
    ghost use Rattle.sandbox_report.specs.Counting.{counted_moved, counted_refused};

    ghost gave = { counted_moved R.gave };

    ghost refused = { counted_refused R.refused };

    fn try_read(&mut self, buf: &mut [u8]) -> io::Result<usize> {
        let moved = self.stream.try_read(buf);
        self.note(moved)
    }
}

impl<W: Outlet> Outlet for Counted<W> {
    ghost use Rattle.sandbox_report.specs.Counting.{counted_moved, counted_refused_or_full};

    ghost took = { counted_moved W.took };

    ghost refused = { counted_refused_or_full W.refused };

    ghost flushed = { λ before after. W.flushed before.stream after.stream × (after.failed ≡ before.failed) };

    ghost refuses = { λ before after. W.refuses before.stream after.stream × (after.failed ≡ before.failed) };

    fn try_write(&mut self, buf: &[u8]) -> io::Result<usize> {
        let room = self.most.saturating_sub(self.count);
        if room == 0 && !buf.is_empty() {
            self.full = true;
            return Err(io::Error::from(ErrorKind::WriteZero));
        }
        let moved = self.stream.try_write(fitting(buf, room));
        self.note(moved)
    }

    fn try_flush(&mut self) -> bool {
        self.stream.try_flush()
    }
}

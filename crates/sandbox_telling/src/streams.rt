//! Where a guest's streams come from and go to.

ghost use Rattle.std.specs.Prelude.{◌≡◌, None};
ghost use Rattle.sandbox_telling.specs.Sources.{guest_of, own_of, sink_of, source_of, spare_of};

use std::io;
use std::io::{Read, Write};
use stream_answers::{Inlet, Outlet};

/// Three streams.
#[derive(Drop)]
pub struct Streams<R, W1, W2> {
    pub input: R,
    pub out: W1,
    pub err: W2,
}

/// What a guest reads.
#[derive(Drop)]
pub enum InputSource<F, R> {
    /// What the program was given.
    Given(R),
    /// A file that was opened in its place.
    Opened(F),
}

impl<F: Read, R: Read> Read for InputSource<F, R> {
    ghost use Rattle.sandbox_telling.specs.Sources.{source_remaining};

    ghost remaining = { source_remaining F.remaining R.remaining };

    fn read(&mut self, buf: &mut [u8]) -> io::Result<usize> {
        match self {
            InputSource::Given(input) => input.read(buf),
            InputSource::Opened(file) => file.read(buf),
        }
    }
}

impl<F: Inlet, R: Inlet> Inlet for InputSource<F, R> {
    ghost use Rattle.sandbox_telling.specs.Sources.{source_answered};

    ghost gave = { λ before bytes after. source_answered (λ a b. F.gave a bytes b) (λ a b. R.gave a bytes b) before after };

    ghost refused = { source_answered F.refused R.refused };

    fn try_read(&mut self, buf: &mut [u8]) -> io::Result<usize> {
        match self {
            InputSource::Given(input) => input.try_read(buf),
            InputSource::Opened(file) => file.try_read(buf),
        }
    }
}

/// What a guest writes to.
#[derive(Drop)]
pub enum Sink<F, W> {
    /// What the program was given.
    Given(W),
    /// A file that was opened or made in its place.
    Made(F),
}

impl<F: Write, W: Write> Write for Sink<F, W> {
    ghost use Rattle.sandbox_telling.specs.Sources.{sink_contents};

    ghost contents = { sink_contents F.contents W.contents };

    fn write(&mut self, buf: &[u8]) -> io::Result<usize> {
        match self {
            Sink::Given(out) => out.write(buf),
            Sink::Made(file) => file.write(buf),
        }
    }

    fn flush(&mut self) -> io::Result<()> {
        match self {
            Sink::Given(out) => out.flush(),
            Sink::Made(file) => file.flush(),
        }
    }
}

impl<F: Outlet, W: Outlet> Outlet for Sink<F, W> {
    ghost use Rattle.sandbox_telling.specs.Sources.{sink_answered};

    ghost took = { λ before bytes after. sink_answered (λ a b. F.took a bytes b) (λ a b. W.took a bytes b) before after };

    ghost refused = { sink_answered F.refused W.refused };

    ghost flushed = { sink_answered F.flushed W.flushed };

    ghost refuses = { sink_answered F.refuses W.refuses };

    fn try_write(&mut self, buf: &[u8]) -> io::Result<usize> {
        match self {
            Sink::Given(out) => out.try_write(buf),
            Sink::Made(file) => file.try_write(buf),
        }
    }

    fn try_flush(&mut self) -> bool {
        match self {
            Sink::Given(out) => out.try_flush(),
            Sink::Made(file) => file.try_flush(),
        }
    }
}

/// The streams that the program was given and that a guest doesn't have, since it has files in their place.
#[derive(Drop)]
pub struct SpareStreams<R, W1, W2> {
    pub input: Option<R>,
    pub out: Option<W1>,
    pub err: Option<W2>,
}

/// A file to be read, or the stream that was given; and the one that is spared.
pub fn source_of<F: Drop, R: Drop>(file: Option<F>, input: R) -> (InputSource<F, R>, Option<R>)
    ensures source { result.0 ≡ source_of file input }
    ensures spare { result.1 ≡ spare_of file input }
{
    match file {
        Some(file) => (InputSource::Opened(file), Some(input)),
        None => (InputSource::Given(input), None),
    }
}

/// A file to be written, or the stream that was given; and the one that is spared.
pub fn sink_of<F: Drop, W: Drop>(file: Option<F>, out: W) -> (Sink<F, W>, Option<W>)
    ensures sink { result.0 ≡ sink_of file out }
    ensures spare { result.1 ≡ spare_of file out }
{
    match file {
        Some(file) => (Sink::Made(file), Some(out)),
        None => (Sink::Given(out), None),
    }
}

/// Where the program's own lines go, and the file of a guest's errors if they don't go there.
pub fn apart<F: Drop, W: Drop>(
    err: Sink<F, W>,
    spare: Option<W>,
) -> (Sink<F, W>, Option<Sink<F, W>>)
    ensures own { result.0 ≡ own_of err spare }
    ensures guest { result.1 ≡ guest_of err spare }
{
    match spare {
        Some(lines) => (Sink::Given(lines), Some(err)),
        None => (err, None),
    }
}

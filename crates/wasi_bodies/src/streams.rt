//! The streams of a guest.

pub mod inputs;
pub mod outputs;

ghost use Rattle.std.specs.Prelude.{◌≡◌};
ghost use Rattle.wasi_bodies.specs.World.{is_terminal};

use wasi_fd::Stream;

/// Which streams of a guest are terminals.
#[derive(Clone, Copy)]
pub struct Terminals {
    pub input: bool,
    pub output: bool,
    pub error: bool,
}

impl Terminals {
    /// Whether this stream is one.
    pub fn has(&self, stream: Stream) -> bool
        ensures { result ≡ is_terminal self.now stream }
    {
        match stream {
            Stream::Input => self.input,
            Stream::Output => self.output,
            Stream::Error => self.error,
        }
    }
}

/// A reader.
#[derive(Drop)]
pub struct Input<R> {
    pub reader: R,
    /// Whether a read has failed. No other is made then.
    pub failed: bool,
    /// Whether the reader has given its end. It isn't asked again then.
    pub ended: bool,
}

/// A writer.
#[derive(Drop)]
pub struct Output<W> {
    pub writer: W,
    /// Whether a write has failed. No other is made then.
    pub failed: bool,
}

//! A stream that is written.

ghost use Rattle.std.specs.Prelude.{◌≡◌, ℕ, List, MatchResult, take, true, false};
ghost use Rattle.std.specs.Io.{WritesAtMost};
ghost use Rattle.std.specs.Io.KnownBytes.{Keeps, WriteAppends};

use std::io;
use std::io::Write;

/// A stream that is written, and what it answers.
///
/// A caller that is proved for all of these can show only by having asked one that it took bytes, that it was flushed, or that it
/// refused either.
pub trait Outlet: Write {
    /// The second state is the first after it took these bytes, maybe none.
    ghost took: { Self → List ℕ → Self → Type 0 };

    /// The second state is the first after it refused to be written.
    ghost refused: { Self → Self → Type 0 };

    /// The second state is the first after it was flushed.
    ghost flushed: { Self → Self → Type 0 };

    /// The second state is the first after it refused to be flushed.
    ghost refuses: { Self → Self → Type 0 };

    /// Writes as `write` does, once.
    ///
    /// # Errors
    ///
    /// The stream's own, an interruption among them.
    fn try_write(&mut self, buf: &[u8]) -> io::Result<usize>
        ensures bound { WritesAtMost result buf.now }
        ensures bytes { WriteAppends (Self.contents self.old) (Self.contents self.new) result
            buf.now }
        ensures told { MatchResult result (λ n. took self.old (take n buf.now) self.new) (λ _. refused self.old self.new) };

    /// Flushes it: whether it could be. Bytes that are known stay.
    fn try_flush(&mut self) -> bool
        ensures bytes { Keeps (Self.contents self.old) (Self.contents self.new) }
        ensures flushed { result ≡ true → flushed self.old self.new }
        ensures refused { result ≡ false → refuses self.old self.new };
}

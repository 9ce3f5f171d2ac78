//! A stream that is read.

ghost use Rattle.std.specs.Prelude.{ℕ, List, MatchResult, take};
ghost use Rattle.std.specs.Io.{ReadsAtMost};
ghost use Rattle.std.specs.Io.KnownBytes.{ReadConsumes};

use std::io;
use std::io::Read;

/// A stream that is read, and what it answers.
///
/// A caller that is proved for all of these can show only by having asked one that it gave bytes, or that it refused to be read. So
/// who says that a stream failed has been refused by it, and who says that it didn't has passed over no refusal.
pub trait Inlet: Read {
    /// The second state is the first after it gave these bytes, which are none at its end.
    ghost gave: { Self → List ℕ → Self → Type 0 };

    /// The second state is the first after it refused to be read.
    ghost refused: { Self → Self → Type 0 };

    /// Reads as `read` does, once.
    ///
    /// # Errors
    ///
    /// The stream's own, an interruption among them.
    fn try_read(&mut self, buf: &mut [u8]) -> io::Result<usize>
        ensures bound { ReadsAtMost result buf.new }
        ensures bytes { ReadConsumes (Self.remaining self.old) (Self.remaining self.new) result
            buf.new }
        ensures told { MatchResult result (λ n. gave self.old (take n buf.new) self.new) (λ _. refused self.old self.new) };
}

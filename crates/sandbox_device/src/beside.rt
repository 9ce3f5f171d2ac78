//! A file that gets other bytes all at once, by the calls that it takes, in their order.

ghost use Rattle.std.specs.Prelude.{ℕ, List, MatchResult};
ghost use Rattle.sandbox_device.specs.Beside.{IsNotReplaced, IsReplaced};
ghost use Rattle.sandbox_device.specs.Contents.{bytes_of};

use crate::new_bytes::Contents;
use std::io;

/// The bytes that are to replace a file. They are written beside it, made to last, and get its name, which is made to last, too.
///
/// What became of them is known by evidence alone: a caller that is proved for all of these can show only by a call which succeeded
/// that the bytes were written, that they last, that they have the name, and that this lasts, and only by one which failed that one
/// of these was refused.
pub(crate) trait Beside {
    /// Between these states these bytes were written, and no others.
    ghost filled: { Self → List ℕ → Self → Type 0 };

    /// Between these states what was written was made to last.
    ghost synced: { Self → Self → Type 0 };

    /// Between these states it got the name of the file that it replaces.
    ghost renamed: { Self → Self → Type 0 };

    /// Between these states the names of its folder were made to last.
    ghost settled: { Self → Self → Type 0 };

    /// Between these states a call failed.
    ghost refused: { Self → Self → Type 0 };

    /// Writes what is to replace it.
    fn fill(&mut self, contents: Contents<'_>) -> io::Result<()>
        ensures { MatchResult result (λ _. filled self.old (bytes_of contents.entry) self.new)
            (λ _. refused self.old self.new) };

    /// Makes what was written last.
    fn sync(&mut self) -> io::Result<()>
        ensures { MatchResult result (λ _. synced self.old self.new) (λ _. refused self.old self.new) };

    /// Gives it the name of the file that it replaces.
    fn rename(&mut self) -> io::Result<()>
        ensures { MatchResult result (λ _. renamed self.old self.new) (λ _. refused self.old self.new) };

    /// Makes the names of its folder last.
    fn settle(&mut self) -> io::Result<()>
        ensures { MatchResult result (λ _. settled self.old self.new) (λ _. refused self.old self.new) };
}

/// Replaces a file: it has its old bytes or all of these, whoever is ended meanwhile.
pub(crate) fn replace<B: Beside>(it: &mut B, contents: Contents<'_>) -> io::Result<()>
    ensures { MatchResult result (λ _. IsReplaced B.filled B.synced B.renamed B.settled
        (bytes_of contents.entry) it.old it.new) (λ _. IsNotReplaced B.filled B.synced B.renamed
        B.refused (bytes_of contents.entry) it.old it.new) }
{
    it.fill(contents)?;
    it.sync()?;
    it.rename()?;
    it.settle()
}

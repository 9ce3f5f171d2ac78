//! A profile as text: folded stacks, a line each.

ghost use Rattle.std.specs.Prelude.{◌≡◌, ◌<◌, ◌++◌, ℕ, List, IfOk, MatchResult, OnOk, length, slice_index};
ghost use Rattle.stream_answers.specs.Printing.{IsPrinted};
ghost use Rattle.observed_run.specs.Folded.{IsFolded, cut_text, line_text, stack_text};
ghost use Rattle.observed_run.specs.Printing.{IsUnprinted};
ghost use Rattle.observed_run.specs.Stacks.{IsStack};

use crate::stacks::FuelProfile;
use std::alloc::{AllocError, Global};
use std::io;
use std::io::Write;
use stream_answers::{Outlet, print_all};

/// What functions are called.
pub trait Names {
    /// The text for a function.
    ghost text: { Self → ℕ → List ℕ };

    /// Adds what a function is called. It fails only where memory is refused.
    fn add(&self, line: &mut Vec<u8>, function: usize) -> io::Result<()>
        ensures { OnOk result (line.new.items ≡ line.old.items ++ text self.now function) };
}

/// Adds functions, of which the innermost comes first, as a stack: the outermost first, with a semicolon between two.
fn add_stack<N: Names>(names: &N, line: &mut Vec<u8>, functions: &[usize]) -> io::Result<()>
    ensures { OnOk result (line.new.items ≡ line.old.items ++ stack_text (N.text names.now)
        functions.now) }
{
    for depth in 0..functions.len() {
        if depth > 0 {
            line.write_all(b";")?;
        }
        names.add(line, functions[functions.len() - 1 - depth])?;
    }
    Ok(())
}

/// The line of functions at work, of which the innermost comes first, and the units that were taken there.
fn line_in<N: Names>(
    alloc: Global,
    names: &N,
    functions: &[usize],
    units: u64,
) -> io::Result<Vec<u8>>
    ensures { IfOk result (λ line. line.items ≡ line_text (N.text names.now) functions.now units) }
{
    let mut line = Vec::new(alloc);
    add_stack(names, &mut line, functions)?;
    writeln!(line, " {units}")?;
    Ok(line)
}

/// The last line of a profile that is cut, which tells so.
fn cut_line(is_cut: bool) -> &'static [u8]
    ensures { result.now ≡ cut_text is_cut }
{
    if is_cut { b"[cut] 0\n" } else { b"" }
}

impl FuelProfile {
    /// The line of a node with units. It fails only where memory is refused.
    fn line_of<N: Names>(
        &self,
        alloc: Global,
        names: &N,
        node: usize,
    ) -> Result<Vec<u8>, AllocError>
        requires { node < length self.now.units }
        ensures { IfOk result (λ line. (functions : List ℕ) × IsStack self.now.calls node functions
            × (line.items ≡ line_text (N.text names.now) functions
            (slice_index self.now.units node))) }
    {
        let functions = self.functions_at(alloc, node)?;
        match line_in(alloc, names, functions.as_slice(), self.units_at(node)) {
            Ok(line) => Ok(line),
            Err(_) => Err(AllocError),
        }
    }

    /// Prints the line of a node with units.
    fn print_node<N: Names, W: Outlet>(
        &self,
        alloc: Global,
        names: &N,
        node: usize,
        out: &mut W,
    ) -> io::Result<()>
        requires { node < length self.now.units }
        ensures { MatchResult result (λ _. (functions : List ℕ)
            × IsStack self.now.calls node functions × IsPrinted W.took W.contents out.old
            (line_text (N.text names.now) functions (slice_index self.now.units node)) out.new)
            (IsUnprinted W.took W.refused out.old out.new) }
    {
        let line = self.line_of(alloc, names, node)?;
        print_all(out, line.as_slice())
    }

    /// Prints the lines of all nodes with units.
    fn print_stacks<N: Names, W: Outlet>(
        &self,
        alloc: Global,
        names: &N,
        out: &mut W,
    ) -> io::Result<()>
        ensures { MatchResult result (λ _. (text : List ℕ)
            × IsFolded self.now.calls (N.text names.now) 0 self.now.units text
            × IsPrinted W.took W.contents out.old text out.new)
            (IsUnprinted W.took W.refused out.old out.new) }
    {
        for node in 0..self.nodes() {
            if self.units_at(node) > 0 {
                self.print_node(alloc, names, node, out)?;
            }
        }
        Ok(())
    }

    /// Prints the stacks in which units were taken, a line each, in the order in which they were first met: the functions, the outermost
    /// first, with a semicolon between two, a blank, and the units. The units of all lines are those that were added. Where some were
    /// added to a function below the one that took them, a line `[cut] 0` comes last; no other line has 0. It fails only where memory is
    /// refused, or the outlet refuses; then some of it may have been printed.
    pub fn print<N: Names, W: Outlet>(
        &self,
        alloc: Global,
        names: &N,
        out: &mut W,
    ) -> io::Result<()>
        ensures { MatchResult result (λ _. (text : List ℕ)
            × IsFolded self.now.calls (N.text names.now) 0 self.now.units text
            × IsPrinted W.took W.contents out.old (text ++ cut_text self.now.is_cut) out.new)
            (IsUnprinted W.took W.refused out.old out.new) }
    {
        self.print_stacks(alloc, names, out)?;
        print_all(out, cut_line(self.is_cut()))
    }
}

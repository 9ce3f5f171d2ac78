//! The functions at work, as a backtrace tells them.

ghost use Rattle.std.specs.Prelude.{◌≡◌, ◌∷◌, reverse, slice_get};
ghost use Rattle.wasm_steps.specs.Configuration.{Configuration, Instance};
ghost use Rattle.wasm_interp.specs.Machine.{Represents, Snapshot, outcome_of};
ghost use Rattle.wasm_places.specs.declared.tables.Prepared.{Prepared as PreparedValue};
ghost use Rattle.wasm_interp.specs.Frames.{Tells, frames_of, is_inside_at};
ghost use Rattle.wasm_interp.specs.internal.Running.{snapshot_of};

use crate::state::State;
use wasm_operands::activation::Activation;
use wasm_operands::phase::Phase;
use wasm_steps::Outcome;

/// A function at work, and the instruction that it goes on with.
#[derive(Clone, Copy)]
pub struct Frame {
    /// Which of the module's own functions it is: its index is that many after those of the imported ones.
    pub own: usize,
    /// The instruction that it goes on with, by its index in the body: the one that comes next, and of a function that has
    /// called another the one after the call.
    pub next: usize,
}

/// A law: the frames that a machine tells are those of each configuration that it stands for, while its run goes on. Of one
/// that trapped they are those of the configuration whose next step takes the last unit, and out of memory of one at most a
/// unit before, or none where no function was at work. Each function but the innermost goes on behind a call of the one inside it.
pub fn frames_are_the_configurations()
    ensures { (s : Snapshot) (i : Instance) (c : Configuration) → Represents s i c
        → Tells (outcome_of s) s.valid i c (frames_of s) }
{}

impl State {
    /// Whether functions are at work, or were when the run trapped or memory was refused.
    pub fn is_inside(&self) -> bool
        ensures { result ≡ is_inside_at self.now.phase }
    {
        match self.phase {
            Phase::Within
            | Phase::Asking(_)
            | Phase::Over(Outcome::Trapped(_) | Outcome::OutOfMemory) => true,
            _ => false,
        }
    }

    /// The function at work with so many inside it.
    pub fn activation(&self, index: usize) -> Option<Activation>
        ensures { result ≡ slice_get (self.now.current ∷ reverse self.now.suspended.items) index }
    {
        if index == 0 {
            return Some(self.current);
        }
        let below = self.suspended.len();
        if index > below {
            return None;
        }
        Some(self.suspended[below - index])
    }

    /// The function at work with so many inside it, or as it was when the run trapped or memory was refused.
    pub fn frame(&self, index: usize) -> Option<Frame>
        ensures { (r : PreparedValue) → result ≡ slice_get (frames_of (snapshot_of r self.now))
            index }
    {
        if !self.is_inside() {
            return None;
        }
        let activation = self.activation(index)?;
        Some(Frame {
            own: activation.function,
            next: activation.pc,
        })
    }
}

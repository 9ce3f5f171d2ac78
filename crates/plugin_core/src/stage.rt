//! Where an instance is.

ghost use Rattle.std.specs.Prelude.{◌≡◌, ℕ, List, slice_get};
ghost use Rattle.wasm_interp.specs.Invoking.{results_of};
ghost use Rattle.wasm_interp.specs.Machine.{Snapshot};
ghost use Rattle.plugin_core.specs.Handling.{act_of, after, answered_at, asked_at, ended_at, let_go_at, returned_at};

use wasm_interp::Event;
use wasm_steps::{Outcome, Pause};

/// Where an instance is.
#[derive(Clone, Copy, Debug, PartialEq, Eq)]
pub enum Stage {
    /// Its start function and its `_initialize` run.
    Opening,
    /// One of these has called a function of the embedder.
    AskedOpening,
    /// Nothing runs: an exported function may be called.
    Ready,
    /// An exported function runs.
    Running,
    /// It has called a function of the embedder.
    Asked,
    /// It has trapped, or was refused memory: another one may be called, and the machine still tells where it stood.
    Stopped,
    /// Nothing is entered any more: the opening didn't return, or a function called `proc_exit`.
    Over,
}

impl Stage {
    /// Where it is once what runs has ended so.
    pub fn after_end(self, outcome: Outcome) -> Stage
        ensures { result ≡ ended_at self outcome }
    {
        match (self, outcome) {
            (Stage::Running, Outcome::Exited(_)) => Stage::Over,
            (Stage::Running, _) => Stage::Stopped,
            _ => Stage::Over,
        }
    }

    /// Where it is once what runs has returned, maybe with a result. The opening gives none.
    pub fn after_return(self, value: Option<u64>) -> Stage
        ensures { (ns : List ℕ) → value ≡ slice_get ns 0 → result ≡ returned_at self ns }
    {
        match (self, value) {
            (Stage::Running, _) | (_, None) => Stage::Ready,
            _ => Stage::Over,
        }
    }

    /// Where it is once the machine came back for this reason, and what runs has returned with this result, if it has.
    pub fn after_event(self, event: Event, value: Option<u64>) -> Stage
        ensures { (s : Snapshot) → value ≡ slice_get (results_of s) 0
            → result ≡ after self (act_of event s) }
    {
        match event {
            Event::Returned => self.after_return(value),
            Event::Asked(_) => self.after_ask(),
            Event::Paused(Pause::Ended(outcome)) => self.after_end(outcome),
            Event::Paused(Pause::Called(_, _) | Pause::Spent) => self,
        }
    }

    /// Where it is once the embedder is asked.
    pub fn after_ask(self) -> Stage
        ensures { result ≡ asked_at self }
    {
        match self {
            Stage::Opening => Stage::AskedOpening,
            _ => Stage::Asked,
        }
    }

    /// Where it is once the embedder has answered.
    pub fn after_answer(self) -> Stage
        ensures { result ≡ answered_at self }
    {
        match self {
            Stage::AskedOpening => Stage::Opening,
            _ => Stage::Running,
        }
    }

    /// Where it is once what was at work is let go.
    pub fn after_letting_go(self) -> Stage
        ensures { result ≡ let_go_at self }
    {
        match self {
            Stage::Opening | Stage::AskedOpening => Stage::Over,
            _ => Stage::Ready,
        }
    }
}

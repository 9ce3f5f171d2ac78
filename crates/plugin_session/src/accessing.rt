//! What is seen of an instance, and how one is finished.

ghost use Rattle.std.specs.Prelude.{◌≡◌, ◌+◌, ◌/◌, IfNone, IfSome, length, reverse, slice_get};
ghost use Rattle.wasm_syntax.specs.declared.module.FuncType.{FuncType as FuncTypeValue};
ghost use Rattle.wasm_interp.specs.Frames.{frames_of};
ghost use Rattle.wasm_interp.specs.Invoking.{IsAskedFor, IsAsking, results_of};

use crate::instance::Instance;
use plugin_core::Stage;
use sandbox_core::{Finished, give_back};
use stream_answers::{Inlet, Outlet};
use vol_sector::Device;
use wasi_calls::Terminals;
use wasm_interp::{AskedCall, Frame};
use wasm_store::Memory;
use wasm_valid::Valid;

impl<'a, 's, 't, D, R, W1, W2> Instance<'a, 's, 't, D, R, W1, W2>
where
    D: Device + Drop,
    R: Inlet + Drop,
    W1: Outlet + Drop,
    W2: Outlet + Drop,
{
    ghost use Rattle.wasi_bodies.specs.host.Worlds.{stream_failed};
    ghost use Rattle.sandbox_core.specs.Session.{Finishes};
    ghost use Rattle.plugin_session.specs.Instance.{interactive_with, limited_to, seeded_by, session_of, used_by};

    /// Where the instance is.
    pub fn stage(&self) -> Stage
        ensures { result ≡ self.now.stage }
    {
        self.stage
    }

    /// The result of the function that has returned last, if it has one.
    pub fn result(&self) -> Option<u64>
        ensures { result ≡ slice_get (results_of self.now.machine) 0 }
    {
        self.machine.result()
    }

    /// The call that the embedder is to answer, with its arguments.
    pub fn asked(&self) -> Option<AskedCall<'_>>
        ensures asked { IfSome result (λ k. (f : FuncTypeValue)
            × IsAskedFor self.now.machine k.import f (reverse k.arguments.now)) }
        ensures not { IfNone result (IsAsking self.now.machine → ⊥) }
    {
        self.machine.asked()
    }

    /// Memory, to be read.
    pub fn memory(&self) -> &Memory
        ensures { result.now ≡ self.now.machine.memory }
    {
        self.machine.guest_memory()
    }

    /// How many pages of 65,536 bytes the guest's memory has.
    pub fn pages(&self) -> u32
        ensures { result ≡ length self.now.machine.memory / 65536 }
    {
        self.machine.pages()
    }

    /// The units of fuel used so far, over all calls.
    pub fn used(&self) -> u64
        ensures { result ≡ used_by self.now }
    {
        self.machine.used()
    }

    /// The module that it runs.
    pub fn module(&self) -> &Valid<'a>
        ensures { result.now ≡ self.now.machine.valid }
    {
        self.machine.module()
    }

    /// The function at work with so many inside it, as `Session::frame` of sandbox_core tells it.
    pub fn frame(&self, index: usize) -> Option<Frame>
        ensures { result ≡ slice_get (frames_of self.now.machine) index }
    {
        self.machine.frame(index)
    }

    /// Sets how many values the guest's stack has at most, as `Session::limit_values` of sandbox_core does.
    pub fn limit_values(&mut self, most: usize)
        ensures { self.new ≡ limited_to most self.old }
    {
        self.machine.limit_values(most)
    }

    /// From now on the guest gets random bytes of this seed, as by `Session::seed` of sandbox_core.
    pub fn seed(&mut self, seed: u64)
        ensures { self.new ≡ seeded_by seed self.old }
    {
        self.host.seed(seed)
    }

    /// From now on the guest is interactive, as by `Session::interact` of sandbox_core.
    pub fn interact(&mut self, terminals: Terminals)
        ensures { self.new ≡ interactive_with terminals self.old }
    {
        self.host.interact(terminals)
    }

    /// The writer of descriptor 1, with what the guest has written there so far.
    pub fn out(&self) -> &W1
        ensures { result.now ≡ self.now.host.out.writer }
    {
        self.host.out()
    }

    /// The writer of descriptor 2, with what the guest has written there so far.
    pub fn err(&self) -> &W2
        ensures { result.now ≡ self.now.host.err.writer }
    {
        self.host.err()
    }

    /// The device of the volume, as it is now: what isn't committed isn't there yet.
    pub fn device(&self) -> &D
        ensures { result.now ≡ self.now.host.volume.device }
    {
        self.host.device()
    }

    /// Whether a read or a write of a stream has failed.
    pub fn has_failed_stream(&self) -> bool
        ensures { result ≡ stream_failed self.now.host }
    {
        self.host.has_failed_stream()
    }

    /// Commits all calls of WASI so far, and gives back what `Session::finish` of sandbox_core does. What is at work is let go.
    pub fn finish(self) -> Finished<D, R, W1, W2>
        ensures { Finishes D.Device (session_of self.entry) result }
    {
        let Instance {
            machine,
            host,
            stage: _,
        } = self;
        drop(machine);
        give_back(host)
    }
}

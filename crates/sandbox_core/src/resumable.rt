//! What a run asks of a session, whether it owns its module or shares it.

ghost use Rattle.std.specs.Prelude.{◌≡◌, ◌+◌, ◌^◌, ◌<◌, ◌/◌, length, slice_get};
ghost use Rattle.wasm_syntax.specs.declared.module.Module.{Module as ModuleValue};
ghost use Rattle.wasm_interp.specs.Frames.{frames_of};
ghost use Rattle.wasi_bodies.specs.host.Worlds.{stream_failed};
ghost use Rattle.sandbox_core.specs.Devices.{devices};
ghost use Rattle.sandbox_core.specs.Session.{SessionState, Resumes, Finishes, limited_to, seeded_by, interactive_with, used_by};

use crate::session::{Finished, Session};
use crate::shared::SharedSession;
use stream_answers::{Inlet, Outlet};
use vol_sector::Device;
use wasi_calls::Terminals;
use wasm_interp::{Frame, Pause};
use wasm_valid::Valid;

/// A session that goes on as far as it is let, of either kind. Each call does what the session's own call of that name does.
pub trait Resumable<D: Device, R: Inlet, W1: Outlet, W2: Outlet> {
    /// What is given back of the module once the session is finished.
    type Kept: Drop;

    /// The session as contracts see it.
    ghost state: { Self → SessionState D R W1 W2 };

    /// This is given back of a session of the module.
    ghost gives_back: { ModuleValue → Self.Kept → Type 0 };

    /// Goes on for at most this many units, until one host call is answered, the run ends, or the next step would take a unit that
    /// isn't left.
    fn resume(&mut self, units: u64) -> Pause
        requires { used_by (state self.old) + units < 2 ^ 64 }
        ensures { Resumes (devices D.Device R.Read W1.Write W2.Write R.gave R.refused W1.took W1.refused W2.took W2.refused)
            (state self.old) (state self.new) units result };

    /// Sets how many values the guest's stack has at most.
    fn limit_values(&mut self, most: usize)
        ensures { state self.new ≡ limited_to most (state self.old) };

    /// From now on the guest gets random bytes of this seed.
    fn seed(&mut self, seed: u64)
        ensures { state self.new ≡ seeded_by seed (state self.old) };

    /// From now on the guest is interactive, with these terminals.
    fn interact(&mut self, terminals: Terminals)
        ensures { state self.new ≡ interactive_with terminals (state self.old) };

    /// The units of fuel used so far.
    fn used(&self) -> u64
        ensures { result ≡ used_by (state self.now) };

    /// How many pages of 65,536 bytes the guest's memory has.
    fn pages(&self) -> u32
        ensures { result ≡ length (state self.now).machine.memory / 65536 };

    /// The function at work with so many inside it.
    fn frame(&self, index: usize) -> Option<Frame>
        ensures { result ≡ slice_get (frames_of (state self.now).machine) index };

    /// Whether a read or a write of a stream has failed.
    fn has_failed_stream(&self) -> bool
        ensures { result ≡ stream_failed (state self.now).host };

    /// Commits all calls so far, and gives back the volume, the streams, and of the module what nobody else owns.
    fn finish(self) -> (Self::Kept, Finished<D, R, W1, W2>)
        ensures kept { gives_back (state self).machine.valid result.0 }
        ensures finishes { Finishes D.Device (state self) result.1 };
}

impl<'a, 's, 't, D, R, W1, W2> Resumable<D, R, W1, W2> for Session<'a, 's, 't, D, R, W1, W2>
where
    D: Device + Drop,
    R: Inlet + Drop,
    W1: Outlet + Drop,
    W2: Outlet + Drop,
{
    type Kept = Valid<'a>;

    ghost state = { λ s. s };

    ghost gives_back = { λ m valid. valid ≡ m };

    fn resume(&mut self, units: u64) -> Pause {
        self.resume(units)
    }

    fn limit_values(&mut self, most: usize) {
        self.limit_values(most)
    }

    fn seed(&mut self, seed: u64) {
        self.seed(seed)
    }

    fn interact(&mut self, terminals: Terminals) {
        self.interact(terminals)
    }

    fn used(&self) -> u64 {
        self.used()
    }

    fn pages(&self) -> u32 {
        self.pages()
    }

    fn frame(&self, index: usize) -> Option<Frame> {
        self.frame(index)
    }

    fn has_failed_stream(&self) -> bool {
        self.has_failed_stream()
    }

    fn finish(self) -> (Valid<'a>, Finished<D, R, W1, W2>) {
        self.finish_with_module()
    }
}

impl<'a, 's, 't, D, R, W1, W2> Resumable<D, R, W1, W2> for SharedSession<'a, 's, 't, D, R, W1, W2>
where
    D: Device + Drop,
    R: Inlet + Drop,
    W1: Outlet + Drop,
    W2: Outlet + Drop,
{
    type Kept = ();

    ghost state = { λ s. s };

    ghost gives_back = { λ m none. Unit {0} };

    fn resume(&mut self, units: u64) -> Pause {
        self.resume(units)
    }

    fn limit_values(&mut self, most: usize) {
        self.limit_values(most)
    }

    fn seed(&mut self, seed: u64) {
        self.seed(seed)
    }

    fn interact(&mut self, terminals: Terminals) {
        self.interact(terminals)
    }

    fn used(&self) -> u64 {
        self.used()
    }

    fn pages(&self) -> u32 {
        self.pages()
    }

    fn frame(&self, index: usize) -> Option<Frame> {
        self.frame(index)
    }

    fn has_failed_stream(&self) -> bool {
        self.has_failed_stream()
    }

    fn finish(self) -> ((), Finished<D, R, W1, W2>) {
        ((), self.finish())
    }
}

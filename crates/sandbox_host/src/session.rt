//! A session of a host, of a module of its own or of one that it shares.

ghost use Rattle.std.specs.Prelude.{◌≡◌, ◌+◌, ◌^◌, ◌<◌, slice_get};

use crate::kept::KeptOutput;
use crate::modules::LoadedModule;
use crate::sharing::Sharing;
use sandbox_core::{Finished, Frame, Pause, Session, Valid};
use sandbox_device::RecordedDevice;

/// A session of a module that no other has, over its device, whose output is kept in memory.
pub type OwnSession<'a> = Session<'a, 'a, 'a, RecordedDevice, &'a [u8], KeptOutput, KeptOutput>;

/// What a session leaves beside its module.
type SessionLeft = Finished<RecordedDevice, &'static [u8], KeptOutput, KeptOutput>;

/// A session behind a handle.
#[derive(Drop)]
pub enum HostSession {
    /// It has its module for itself.
    Own(OwnSession<'static>),
    /// Its module may have other owners.
    Shared(Sharing),
}

impl HostSession {
    ghost use Rattle.wasm_interp.specs.Frames.{frames_of};
    ghost use Rattle.sandbox_core.specs.Session.{used_by};
    ghost use Rattle.sandbox_host.specs.Host.{Resumes, FinishesAll};
    ghost use Rattle.sandbox_host.specs.Sessions.{state_of, ready_with, module_of, ready_of};

    /// Goes on for at most this many units.
    pub(crate) fn resume(&mut self, units: u64) -> Pause
        requires { used_by (state_of self.old) + units < 2 ^ 64 }
        ensures resumes { Resumes (state_of self.old) (state_of self.new) units result }
        ensures ready { ready_with self.new ≡ ready_with self.old }
    {
        match self {
            HostSession::Own(session) => session.resume(units),
            HostSession::Shared(sharing) => sharing.session.resume(units),
        }
    }

    /// The module that it runs.
    pub(crate) fn module(&self) -> &Valid<'static>
        ensures { result.now ≡ (state_of self.now).machine.valid }
    {
        match self {
            HostSession::Own(session) => session.module(),
            HostSession::Shared(sharing) => sharing.session.module(),
        }
    }

    /// The function at work with so many inside it.
    pub(crate) fn frame(&self, index: usize) -> Option<Frame>
        ensures { result ≡ slice_get (frames_of (state_of self.now).machine) index }
    {
        match self {
            HostSession::Own(session) => session.frame(index),
            HostSession::Shared(sharing) => sharing.session.frame(index),
        }
    }

    /// The units of fuel used so far.
    pub(crate) fn used(&self) -> u64
        ensures { result ≡ used_by (state_of self.now) }
    {
        match self {
            HostSession::Own(session) => session.used(),
            HostSession::Shared(sharing) => sharing.session.used(),
        }
    }

    /// What the guest has written to descriptor 1.
    pub(crate) fn out(&self) -> &KeptOutput
        ensures { result.now ≡ (state_of self.now).host.out.writer }
    {
        match self {
            HostSession::Own(session) => session.out(),
            HostSession::Shared(sharing) => sharing.session.out(),
        }
    }

    /// What the guest has written to descriptor 2.
    pub(crate) fn err(&self) -> &KeptOutput
        ensures { result.now ≡ (state_of self.now).host.err.writer }
    {
        match self {
            HostSession::Own(session) => session.err(),
            HostSession::Shared(sharing) => sharing.session.err(),
        }
    }

    /// The device of its volume, as it is now.
    pub(crate) fn device(&self) -> &RecordedDevice
        ensures { result.now ≡ (state_of self.now).host.volume.device }
    {
        match self {
            HostSession::Own(session) => session.device(),
            HostSession::Shared(sharing) => sharing.session.device(),
        }
    }

    /// Commits its calls, and gives its module back with what it leaves.
    pub(crate) fn finish(self) -> (LoadedModule, SessionLeft)
        ensures module { module_of result.0 ≡ (state_of self).machine.valid }
        ensures ready { ready_of result.0 ≡ ready_with self }
        ensures finishes { FinishesAll (state_of self) result.1 }
    {
        match self {
            HostSession::Own(session) => {
                let (valid, left) = session.finish_with_module();
                (LoadedModule::Plain(valid), left)
            }
            HostSession::Shared(Sharing { session, ready }) => {
                (LoadedModule::Prepared(ready), session.finish())
            }
        }
    }
}

//! Instances behind a handle, and what a finished one leaves.

ghost use Rattle.std.specs.Prelude.{◌≡◌, IfNone, IfSome, reverse, slice_get};
ghost use Rattle.wasm_syntax.specs.declared.module.FuncType.{FuncType as FuncTypeValue};
ghost use Rattle.sandbox_host.specs.Kinds.{device_at, err_at, machine_at, out_at, used_at, volume_at};

use crate::kept::KeptOutput;
use fed_session::FedInstance;
use plugin_session::{AskedCall, Instance};
use sandbox_core::{Finished, Frame, Valid, Volume};
use sandbox_device::RecordedDevice;
use sandbox_inspect::ModuleBytes;
use vol_sector::Refused;
use wasm_store::Memory;

/// An instance over its device, whose output is kept in memory, and whose input is there at its opening.
pub type PlainInstance<'a> = Instance<'a, 'a, 'a, RecordedDevice, &'a [u8], KeptOutput, KeptOutput>;

/// The same, whose input goes on.
pub type FeedableInstance<'a> = FedInstance<'a, 'a, 'a, RecordedDevice, KeptOutput, KeptOutput>;

/// The volume that an instance leaves.
type VolumeLeft = Result<Volume<RecordedDevice>, Refused<RecordedDevice>>;

/// An instance behind a handle.
#[derive(Drop)]
pub enum HostInstance {
    /// All of its input is there at its opening.
    Plain(PlainInstance<'static>),
    /// Its input may go on.
    Fed(FeedableInstance<'static>),
}

impl HostInstance {
    ghost use Rattle.wasm_interp.specs.Frames.{frames_of};
    ghost use Rattle.wasm_interp.specs.Invoking.{IsAskedFor, IsAsking, results_of};
    ghost use Rattle.sandbox_host.specs.Host.{Commits};

    /// The module that it runs.
    pub(crate) fn module(&self) -> &Valid<'static>
        ensures { result.now ≡ (machine_at self.now).valid }
    {
        match self {
            HostInstance::Plain(plain) => plain.module(),
            HostInstance::Fed(fed) => fed.instance().module(),
        }
    }

    /// The function at work with so many inside it.
    pub(crate) fn frame(&self, index: usize) -> Option<Frame>
        ensures { result ≡ slice_get (frames_of (machine_at self.now)) index }
    {
        match self {
            HostInstance::Plain(plain) => plain.frame(index),
            HostInstance::Fed(fed) => fed.instance().frame(index),
        }
    }

    /// Its memory.
    pub(crate) fn memory(&self) -> &Memory
        ensures { result.now ≡ (machine_at self.now).memory }
    {
        match self {
            HostInstance::Plain(plain) => plain.memory(),
            HostInstance::Fed(fed) => fed.instance().memory(),
        }
    }

    /// The call that waits for an answer, with its arguments.
    pub(crate) fn asked(&self) -> Option<AskedCall<'_>>
        ensures asked { IfSome result (λ k. (f : FuncTypeValue)
            × IsAskedFor (machine_at self.now) k.import f (reverse k.arguments.now)) }
        ensures not { IfNone result (IsAsking (machine_at self.now) → ⊥) }
    {
        match self {
            HostInstance::Plain(plain) => plain.asked(),
            HostInstance::Fed(fed) => fed.instance().asked(),
        }
    }

    /// The result of the function that has returned last, if it has one.
    pub(crate) fn result(&self) -> Option<u64>
        ensures { result ≡ slice_get (results_of (machine_at self.now)) 0 }
    {
        match self {
            HostInstance::Plain(plain) => plain.result(),
            HostInstance::Fed(fed) => fed.instance().result(),
        }
    }

    /// The units of fuel that it has used so far.
    pub(crate) fn used(&self) -> u64
        ensures { result ≡ used_at self.now }
    {
        match self {
            HostInstance::Plain(plain) => plain.used(),
            HostInstance::Fed(fed) => fed.instance().used(),
        }
    }

    /// What the guest has written to descriptor 1.
    pub(crate) fn out(&self) -> &KeptOutput
        ensures { result.now ≡ out_at self.now }
    {
        match self {
            HostInstance::Plain(plain) => plain.out(),
            HostInstance::Fed(fed) => fed.instance().out(),
        }
    }

    /// What the guest has written to descriptor 2.
    pub(crate) fn err(&self) -> &KeptOutput
        ensures { result.now ≡ err_at self.now }
    {
        match self {
            HostInstance::Plain(plain) => plain.err(),
            HostInstance::Fed(fed) => fed.instance().err(),
        }
    }

    /// The device of its volume, as it is now.
    pub(crate) fn device(&self) -> &RecordedDevice
        ensures { result.now ≡ device_at self.now }
    {
        match self {
            HostInstance::Plain(plain) => plain.device(),
            HostInstance::Fed(fed) => fed.instance().device(),
        }
    }

    /// Commits its calls of WASI, and gives back its volume and what it has written to descriptors 1 and 2.
    pub(crate) fn finish(self) -> (VolumeLeft, KeptOutput, KeptOutput)
        ensures volume { Commits (volume_at self) result.0 }
        ensures out { result.1 ≡ out_at self }
        ensures err { result.2 ≡ err_at self }
    {
        match self {
            HostInstance::Plain(plain) => {
                let Finished {
                    volume,
                    out,
                    err,
                    ..
                } = plain.finish();
                (volume, out, err)
            }
            HostInstance::Fed(fed) => {
                let Finished {
                    volume,
                    out,
                    err,
                    ..
                } = fed.finish();
                (volume, out, err)
            }
        }
    }
}

/// An instance that isn't finished.
#[derive(Drop)]
pub struct Living {
    pub instance: HostInstance,
    pub bytes: ModuleBytes<'static>,
}

/// What a finished instance leaves.
#[derive(Drop)]
pub struct SessionLeft {
    pub bytes: ModuleBytes<'static>,
    pub device: RecordedDevice,
    pub out: KeptOutput,
    pub err: KeptOutput,
}

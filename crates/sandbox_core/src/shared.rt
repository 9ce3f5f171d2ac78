//! Sessions that share one prepared module.

ghost use Rattle.std.specs.Prelude.{◌≡◌, ◌+◌, ◌^◌, ◌<◌, ◌/◌, IfOk, IfErr, length, slice_get};
ghost use Rattle.wasm_store.specs.NotStarting.{RefusedFor};
ghost use Rattle.wasm_interp.specs.Frames.{frames_of};
ghost use Rattle.wasi_calls.specs.host.Links.{link};
ghost use Rattle.sandbox_core.specs.Devices.{devices};
ghost use Rattle.sandbox_core.specs.Session.{given};

use crate::fault::{SessionFault, of_host, of_instance};
use crate::session::{Finished, give_back};
use std::alloc::{AllocError, Global};
use std::marker::Model;
use stream_answers::{Inlet, Outlet};
use vol_sector::Device;
use vol_tree::Volume;
use wasi_calls::{HostParts, RefusedHost, Settings, Terminals, WasiHost, call_of};
use wasm_interp::{
    Answer, Frame, Host, HostCall, Pause, PreparedModule, RefusedInstance, SharedMachine,
};
use wasm_module::FuncType;
use wasm_store::Memory;
use wasm_valid::Valid;

/// Links as the host of each session does. A module is prepared over it, and it is asked nothing else.
pub struct Linker;

impl Host for Linker {
    ghost use Rattle.wasi_calls.specs.host.Links.{link};

    ghost links = { λ _. link };

    ghost calls = { λ host memory used call arguments after memory_after answer. Unit {0} };

    fn link(&self, module_name: &str, name: &str, func_type: &FuncType) -> Option<HostCall> {
        call_of(module_name, name, func_type)
    }

    fn call(
        &mut self,
        _memory: &mut Memory,
        _used: u64,
        _call: HostCall,
        _arguments: &[u64],
    ) -> Answer {
        Answer::Exit(0)
    }
}

/// A valid module that is ready for sessions: all that their machines look up of it was made once. It may have owners in other
/// threads.
#[derive(Drop)]
pub struct SharedModule<'a> {
    module: PreparedModule<'a>,
}

impl<'a> Model for SharedModule<'a> {
    ghost use Rattle.wasi_calls.specs.host.Links.{link};
    ghost use Rattle.wasm_interp.specs.Shared.{AreCallsOf, Ready};

    ghost Value = { Ready };

    ghost view = { λ m. m.module };

    ghost invariant = { λ m. AreCallsOf link m.module.valid m.module.calls };
}

impl<'a> SharedModule<'a> {
    /// Prepares a module for sessions whose guest has at most this many pages of memory. It is instantiated once to that end, so it
    /// is refused for what a session would be refused for, and handed back then.
    pub fn new(
        alloc: Global,
        valid: Valid<'a>,
        pages: u32,
    ) -> Result<SharedModule<'a>, RefusedInstance<'a>>
        ensures module { IfOk result (λ m. (m.valid ≡ valid.entry) × (m.pages ≡ pages)) }
        ensures refused { IfErr result (λ r. (r.valid ≡ valid.entry)
            × RefusedFor link pages valid.entry r.fault) }
    {
        match PreparedModule::new(alloc, valid, pages, &Linker) {
            Ok(module) => Ok(SharedModule { module }),
            Err(refused) => Err(refused),
        }
    }

    /// The same module for one owner more, who may be in another thread.
    pub fn share(&self) -> Result<SharedModule<'a>, AllocError>
        ensures { IfOk result (λ m. m ≡ self.now) }
    {
        let module = self.module.share()?;
        Ok(SharedModule { module })
    }

    /// The module that was prepared.
    pub fn module(&self) -> &Valid<'a>
        ensures { result.now ≡ self.now.valid }
    {
        self.module.module()
    }

    /// How many pages the memory of a guest has at most: the settings of its sessions have the same number.
    pub fn pages(&self) -> u32
        ensures { result ≡ self.now.pages }
    {
        self.module.pages()
    }
}

/// A guest with its volume and its streams, as `Session`, over a module that may have other owners.
#[derive(Drop)]
pub struct SharedSession<'a, 's, 't, D: Device, R: Inlet, W1: Outlet, W2: Outlet> {
    machine: SharedMachine<'a>,
    host: WasiHost<'s, 't, D, R, W1, W2>,
}

impl<'a, 's, 't, D: Device, R: Inlet, W1: Outlet, W2: Outlet> Model
    for SharedSession<'a, 's, 't, D, R, W1, W2> {
    ghost use Rattle.sandbox_core.specs.Session.{SessionState};
    ghost use Rattle.sandbox_core.specs.internal.Running.{HasConfiguration};

    ghost Value = { SessionState D R W1 W2 };

    ghost view = { λ s. record { machine = s.machine; host = s.host } };

    ghost invariant = { λ s. HasConfiguration s.machine };
}

/// What a session was to be made of beside its module, handed back with the reason.
#[derive(Drop)]
pub struct RefusedParts<'s, 't, D: Device, R, W1, W2> {
    pub parts: HostParts<'s, 't, D, R, W1, W2>,
    pub fault: SessionFault,
}

impl<'a, 's, 't, D, R, W1, W2> SharedSession<'a, 's, 't, D, R, W1, W2>
where
    D: Device + Drop,
    R: Inlet + Drop,
    W1: Outlet + Drop,
    W2: Outlet + Drop,
{
    ghost use Rattle.wasi_bodies.specs.host.Worlds.{stream_failed};
    ghost use Rattle.sandbox_core.specs.Session.{used_by, limited_to, seeded_by, interactive_with, Opens, Shares, HandsBack, IsRefused, Resumes, Finishes};

    /// A session of a prepared module, as `Session::new` makes one. The settings have the pages that it was prepared for.
    pub fn new(
        alloc: Global,
        shared: &SharedModule<'a>,
        settings: Settings<'s, 't>,
        volume: Volume<D>,
        input: R,
        out: W1,
        err: W2,
    ) -> Result<SharedSession<'a, 's, 't, D, R, W1, W2>, RefusedParts<'s, 't, D, R, W1, W2>>
        requires { settings.pages ≡ shared.now.pages }
        ensures opens { IfOk result (Opens shared.now.valid
            (given settings.entry volume input out err)) }
        ensures shares { IfOk result (Shares D.Device (given settings.entry volume input out err)) }
        ensures hands_back { IfErr result (λ r. HandsBack D.Device shared.now.valid
            (given settings.entry volume input out err)
            (record { valid = shared.now.valid; parts = r.parts; fault = r.fault })) }
        ensures refused { IfErr result (λ r. IsRefused D.honest r.fault shared.now.valid
            (given settings.entry volume input out err)) }
    {
        let parts = HostParts {
            settings,
            volume,
            input,
            out,
            err,
        };
        SharedSession::of_parts(alloc, shared, parts)
    }

    /// The same, of parts that are packed.
    pub fn of_parts(
        alloc: Global,
        shared: &SharedModule<'a>,
        parts: HostParts<'s, 't, D, R, W1, W2>,
    ) -> Result<SharedSession<'a, 's, 't, D, R, W1, W2>, RefusedParts<'s, 't, D, R, W1, W2>>
        requires { parts.settings.pages ≡ shared.now.pages }
        ensures opens { IfOk result (Opens shared.now.valid parts.entry) }
        ensures shares { IfOk result (Shares D.Device parts.entry) }
        ensures hands_back { IfErr result (λ r. HandsBack D.Device shared.now.valid parts.entry
            (record { valid = shared.now.valid; parts = r.parts; fault = r.fault })) }
        ensures refused { IfErr result (λ r. IsRefused D.honest r.fault shared.now.valid
            parts.entry) }
    {
        parts.volume.is_a_tree(); // a law for the contract
        let mut host = match WasiHost::new(alloc, parts) {
            Ok(host) => host,
            Err(RefusedHost { parts, fault }) => {
                return Err(RefusedParts {
                    parts,
                    fault: of_host(fault),
                });
            }
        };
        let machine = match SharedMachine::new(alloc, &shared.module, &host) {
            Ok(machine) => machine,
            Err(fault) => {
                return Err(RefusedParts {
                    parts: host.into_parts(),
                    fault: of_instance(fault),
                });
            }
        };
        match host.preopen() {
            Ok(()) => Ok(SharedSession { machine, host }),
            Err(fault) => Err(RefusedParts {
                parts: host.into_parts(),
                fault: of_host(fault),
            }),
        }
    }

    /// Goes on as `Session::resume` does.
    pub fn resume(&mut self, units: u64) -> Pause
        requires { used_by self.old + units < 2 ^ 64 }
        ensures { Resumes (devices D.Device R.Read W1.Write W2.Write R.gave R.refused W1.took
            W1.refused W2.took W2.refused) self.old self.new units result }
    {
        self.machine.resume(&mut self.host, units)
    }

    /// Sets how many values the guest's stack has at most, as `Session::limit_values` does.
    pub fn limit_values(&mut self, most: usize)
        ensures { self.new ≡ limited_to most self.old }
    {
        self.machine.limit_values(most)
    }

    /// From now on the guest gets random bytes of this seed, as by `Session::seed`.
    pub fn seed(&mut self, seed: u64)
        ensures { self.new ≡ seeded_by seed self.old }
    {
        self.host.seed(seed)
    }

    /// From now on the guest is interactive, as by `Session::interact`.
    pub fn interact(&mut self, terminals: Terminals)
        ensures { self.new ≡ interactive_with terminals self.old }
    {
        self.host.interact(terminals)
    }

    /// The module that it runs.
    pub fn module(&self) -> &Valid<'a>
        ensures { result.now ≡ self.now.machine.valid }
    {
        self.machine.module()
    }

    /// The units of fuel used so far.
    pub fn used(&self) -> u64
        ensures { result ≡ used_by self.now }
    {
        self.machine.used()
    }

    /// How many pages of 65,536 bytes the guest's memory has.
    pub fn pages(&self) -> u32
        ensures { result ≡ length self.now.machine.memory / 65536 }
    {
        self.machine.pages()
    }

    /// The function at work with so many inside it, as `Session::frame` tells it.
    pub fn frame(&self, index: usize) -> Option<Frame>
        ensures { result ≡ slice_get (frames_of self.now.machine) index }
    {
        self.machine.frame(index)
    }

    /// The writer of descriptor 1, with what the guest has written there so far.
    pub fn out(&self) -> &W1
        ensures { result.now ≡ self.now.host.out.writer }
    {
        self.host.out()
    }

    /// The writer of descriptor 2, with what the guest has written there so far.
    pub fn err(&self) -> &W2
        ensures { result.now ≡ self.now.host.err.writer }
    {
        self.host.err()
    }

    /// The device of the volume, as it is now: what isn't committed isn't there yet.
    pub fn device(&self) -> &D
        ensures { result.now ≡ self.now.host.volume.device }
    {
        self.host.device()
    }

    /// Whether a read or a write of a stream has failed.
    pub fn has_failed_stream(&self) -> bool
        ensures { result ≡ stream_failed self.now.host }
    {
        self.host.has_failed_stream()
    }

    /// Commits all calls so far, and gives back what `Session::finish` does.
    pub fn finish(self) -> Finished<D, R, W1, W2>
        ensures { Finishes D.Device self.entry result }
    {
        let SharedSession { machine, host } = self;
        drop(machine);
        give_back(host)
    }
}

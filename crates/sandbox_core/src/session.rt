//! Sessions of a guest.

ghost use Rattle.std.specs.Prelude.{◌≡◌, ◌+◌, ◌^◌, ◌<◌, ◌/◌, IfOk, IfErr, length, slice_get};
ghost use Rattle.wasm_interp.specs.Frames.{frames_of};
ghost use Rattle.wasm_interp.specs.Machine.{Snapshot};
ghost use Rattle.sandbox_core.specs.Devices.{devices};
ghost use Rattle.sandbox_core.specs.Session.{given, Commits, Finishes};

use crate::fault::{SessionFault, of_host, of_instance};
use std::alloc::Global;
use std::marker::Model;
use stream_answers::{Inlet, Outlet};
use vol_sector::{Device, Refused, VolumeFault};
use vol_tree::Volume;
use wasi_calls::{HostParts, RefusedHost, Settings, Terminals, WasiHost};
use wasm_interp::{Frame, Machine, Pause, RefusedInstance};
use wasm_valid::Valid;

/// A guest with its volume and its streams, which runs as far as it is let.
#[derive(Drop)]
pub struct Session<'a, 's, 't, D: Device, R: Inlet, W1: Outlet, W2: Outlet> {
    machine: Machine<'a>,
    host: WasiHost<'s, 't, D, R, W1, W2>,
}

impl<'a, 's, 't, D: Device, R: Inlet, W1: Outlet, W2: Outlet> Model
    for Session<'a, 's, 't, D, R, W1, W2> {
    ghost use Rattle.sandbox_core.specs.Session.{SessionState};
    ghost use Rattle.sandbox_core.specs.internal.Running.{HasConfiguration};

    ghost Value = { SessionState D R W1 W2 };

    ghost view = { λ s. record { machine = s.machine; host = s.host } };

    ghost invariant = { λ s. HasConfiguration s.machine };
}

/// What a session was to be made of, handed back with the reason.
#[derive(Drop)]
pub struct RefusedSession<'a, 's, 't, D: Device, R, W1, W2> {
    pub valid: Valid<'a>,
    pub parts: HostParts<'s, 't, D, R, W1, W2>,
    pub fault: SessionFault,
}

/// What a session leaves: the volume, or its device where it failed, and the streams.
#[derive(Drop)]
pub struct Finished<D: Device, R, W1, W2> {
    pub volume: Result<Volume<D>, Refused<D>>,
    pub input: R,
    pub out: W1,
    pub err: W2,
}

/// Commits all calls so far, and gives the volume back, or its device where it fails or has failed.
fn committed<D: Device>(mut volume: Volume<D>) -> Result<Volume<D>, Refused<D>>
    ensures { Commits D.Device volume result }
{
    // It is refused exactly where the volume has failed then.
    let _answer = volume.sync();
    if volume.failed() {
        return Err(Refused {
            device: volume.into_device(),
            fault: VolumeFault::Device,
        });
    }
    Ok(volume)
}

/// Commits all calls so far, and gives back what a host has: the volume and the streams.
pub fn give_back<D, R, W1, W2>(host: WasiHost<'_, '_, D, R, W1, W2>) -> Finished<D, R, W1, W2>
where
    D: Device + Drop,
    R: Inlet + Drop,
    W1: Outlet + Drop,
    W2: Outlet + Drop,
    ensures { (machine : Snapshot) → Finishes D.Device
        (record { machine = machine; host = host.entry }) result }
{
    let HostParts {
        settings: _,
        volume,
        input,
        out,
        err,
    } = host.into_parts();
    Finished {
        volume: committed(volume),
        input,
        out,
        err,
    }
}

impl<'a, 's, 't, D, R, W1, W2> Session<'a, 's, 't, D, R, W1, W2>
where
    D: Device + Drop,
    R: Inlet + Drop,
    W1: Outlet + Drop,
    W2: Outlet + Drop,
{
    ghost use Rattle.wasi_bodies.specs.host.Worlds.{stream_failed};
    ghost use Rattle.sandbox_core.specs.Session.{used_by, limited_to, seeded_by, interactive_with, Opens, Shares, HandsBack, IsRefused, Resumes};

    /// A session of the module, which has used nothing yet. The streams are the descriptors 0 to 2, and the preopened
    /// directories of the settings those from 3 on.
    ///
    /// A refusal hands everything back. It comes for the settings first, then for the module, and then for the volume and
    /// its directories. Only where the volume fails is anything changed: it has failed then.
    pub fn new(
        alloc: Global,
        valid: Valid<'a>,
        settings: Settings<'s, 't>,
        volume: Volume<D>,
        input: R,
        out: W1,
        err: W2,
    ) -> Result<Session<'a, 's, 't, D, R, W1, W2>, RefusedSession<'a, 's, 't, D, R, W1, W2>>
        ensures opens { IfOk result (Opens valid.entry
            (given settings.entry volume input out err)) }
        ensures shares { IfOk result (Shares D.Device (given settings.entry volume input out err)) }
        ensures hands_back { IfErr result (HandsBack D.Device valid.entry
            (given settings.entry volume input out err)) }
        ensures refused { IfErr result (λ r. IsRefused D.honest r.fault valid.entry
            (given settings.entry volume input out err)) }
    {
        let parts = HostParts {
            settings,
            volume,
            input,
            out,
            err,
        };
        Session::of_parts(alloc, valid, parts)
    }

    /// The same, of parts that are packed.
    pub fn of_parts(
        alloc: Global,
        valid: Valid<'a>,
        parts: HostParts<'s, 't, D, R, W1, W2>,
    ) -> Result<Session<'a, 's, 't, D, R, W1, W2>, RefusedSession<'a, 's, 't, D, R, W1, W2>>
        ensures opens { IfOk result (Opens valid.entry parts.entry) }
        ensures shares { IfOk result (Shares D.Device parts.entry) }
        ensures hands_back { IfErr result (HandsBack D.Device valid.entry parts.entry) }
        ensures refused { IfErr result (λ r. IsRefused D.honest r.fault valid.entry
            parts.entry) }
    {
        parts.volume.is_a_tree(); // a law for the contract
        let pages = parts.settings.pages;
        let mut host = match WasiHost::new(alloc, parts) {
            Ok(host) => host,
            Err(RefusedHost { parts, fault }) => {
                return Err(RefusedSession {
                    valid,
                    parts,
                    fault: of_host(fault),
                });
            }
        };
        let machine = match Machine::new(alloc, valid, pages, &host) {
            Ok(machine) => machine,
            Err(RefusedInstance { valid, fault }) => {
                return Err(RefusedSession {
                    valid,
                    parts: host.into_parts(),
                    fault: of_instance(fault),
                });
            }
        };
        match host.preopen() {
            Ok(()) => Ok(Session { machine, host }),
            Err(fault) => Err(RefusedSession {
                valid: machine.into_valid(),
                parts: host.into_parts(),
                fault: of_host(fault),
            }),
        }
    }

    /// Goes on for at most this many units of fuel, until one host call is answered, the run ends, or the next step would
    /// take a unit that isn't left. A session that has ended answers the same again.
    pub fn resume(&mut self, units: u64) -> Pause
        requires { used_by self.old + units < 2 ^ 64 }
        ensures { Resumes (devices D.Device R.Read W1.Write W2.Write R.gave R.refused W1.took
            W1.refused W2.took W2.refused) self.old self.new units result }
    {
        self.machine.resume(&mut self.host, units)
    }

    /// Sets how many values the guest's stack has at most, of eight bytes each: a step that would leave more is refused memory as
    /// if the host had none. Fewer than 4,097 count as 4,097, and without this call they are 134,217,728. Set it before the run.
    pub fn limit_values(&mut self, most: usize)
        ensures { self.new ≡ limited_to most self.old }
    {
        self.machine.limit_values(most)
    }

    /// From now on the guest gets random bytes without end: those of `ChaCha20Rng::seed_from_u64(seed)`, one `fill_bytes` for
    /// each `random_get`, and none of the settings'. The same seed gives the same bytes again. Set it before the run.
    pub fn seed(&mut self, seed: u64)
        ensures { self.new ≡ seeded_by seed self.old }
    {
        self.host.seed(seed)
    }

    /// From now on a read of descriptor 0 gives what one read of the input finds, at most as many bytes as its first buffer with
    /// room takes, and none only at the end: so the guest answers at once who talks to it. It is told which of its streams are
    /// terminals. What it does is a function of the bytes of the input and of how they were cut. Set it before the run.
    pub fn interact(&mut self, terminals: Terminals)
        ensures { self.new ≡ interactive_with terminals self.old }
    {
        self.host.interact(terminals)
    }

    /// The module that it runs.
    pub fn module(&self) -> &Valid<'a>
        ensures { result.now ≡ self.now.machine.valid }
    {
        self.machine.module()
    }

    /// The units of fuel used so far.
    pub fn used(&self) -> u64
        ensures { result ≡ used_by self.now }
    {
        self.machine.used()
    }

    /// How many pages of 65,536 bytes the guest's memory has.
    pub fn pages(&self) -> u32
        ensures { result ≡ length self.now.machine.memory / 65536 }
    {
        self.machine.pages()
    }

    /// The function at work with so many inside it: 0 is the innermost. Where the run goes on, and out of fuel, they are those of
    /// the configuration; of a trap, and out of memory, those that were at work then (`frames_are_the_configurations`).
    pub fn frame(&self, index: usize) -> Option<Frame>
        ensures { result ≡ slice_get (frames_of self.now.machine) index }
    {
        self.machine.frame(index)
    }

    /// The writer of descriptor 1, with what the guest has written there so far.
    pub fn out(&self) -> &W1
        ensures { result.now ≡ self.now.host.out.writer }
    {
        self.host.out()
    }

    /// The writer of descriptor 2, with what the guest has written there so far.
    pub fn err(&self) -> &W2
        ensures { result.now ≡ self.now.host.err.writer }
    {
        self.host.err()
    }

    /// The device of the volume, as it is now: what isn't committed isn't there yet.
    pub fn device(&self) -> &D
        ensures { result.now ≡ self.now.host.volume.device }
    {
        self.host.device()
    }

    /// Whether a read or a write of a stream has failed.
    pub fn has_failed_stream(&self) -> bool
        ensures { result ≡ stream_failed self.now.host }
    {
        self.host.has_failed_stream()
    }

    /// Commits all calls so far, and gives the volume back and the streams. Where the device fails, or had failed, the
    /// device itself is given back as `Device`.
    pub fn finish(self) -> Finished<D, R, W1, W2>
        ensures { Finishes D.Device self.entry result }
    {
        let (valid, finished) = self.finish_with_module();
        drop(valid);
        finished
    }

    /// Commits as `finish` does, and gives the module back too, which another session can be made of: it was decoded
    /// and validated once.
    pub fn finish_with_module(self) -> (Valid<'a>, Finished<D, R, W1, W2>)
        ensures module { result.0 ≡ self.entry.machine.valid }
        ensures finishes { Finishes D.Device self.entry result.1 }
    {
        let Session { machine, host } = self;
        let finished = give_back(host);
        (machine.into_valid(), finished)
    }
}

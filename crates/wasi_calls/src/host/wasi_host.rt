//! The host of a guest: a volume, streams and supplies.

ghost use Rattle.std.specs.Prelude.{◌≡◌, IfOk, IfErr};
ghost use Rattle.wasi_bodies.specs.internal.Entries.{errno_of};

use crate::host::fault::HostFault;
use crate::host::inner::Inner;
use crate::host::{VolumeHost, linking};
use rand_chacha::ChaCha20Rng;
use rand_core::SeedableRng;
use std::alloc::Global;
use std::marker::Model;
use std::mem;
use stream_answers::{Inlet, Outlet};
use vol_sector::Device;
use vol_tree::Volume;
use wasi_bodies::arguments::word;
use wasi_bodies::checks::buffers::MOST_BUFFERS;
use wasi_bodies::settings::Settings;
use wasi_bodies::streams::inputs::INPUT_PIECE;
use wasi_bodies::streams::{Input, Output, Terminals};
use wasi_fd::Descriptors;
use wasm_module::FuncType;
use wasm_store::{Answer, Errno, Host, HostCall, Memory};

/// The host of a guest, which answers its calls.
#[derive(Drop)]
pub struct WasiHost<'s, 't, D: Device, R: Inlet, W1: Outlet, W2: Outlet> {
    inner: Inner<'s, 't, D, R, W1, W2>,
}

/// What a host was made of, as it is now: of the random bytes those that are left.
#[derive(Drop)]
pub struct HostParts<'s, 't, D: Device, R, W1, W2> {
    pub settings: Settings<'s, 't>,
    pub volume: Volume<D>,
    pub input: R,
    pub out: W1,
    pub err: W2,
}

/// What a host was to be made of, handed back with the reason.
#[derive(Drop)]
pub struct RefusedHost<'s, 't, D: Device, R, W1, W2> {
    pub parts: HostParts<'s, 't, D, R, W1, W2>,
    pub fault: HostFault,
}

impl<'s, 't, D: Device, R: Inlet, W1: Outlet, W2: Outlet> Model for WasiHost<'s, 't, D, R, W1, W2> {
    ghost use Rattle.wasi_bodies.specs.host.Worlds.{HostState};

    ghost Value = { HostState D R W1 W2 };

    ghost use Rattle.wasi_calls.specs.internal.Bodies.{state_of, IsReadyForCalls};

    ghost view = { λ h. state_of h.inner };

    ghost invariant = { λ h. IsReadyForCalls D.honest R.remaining h.inner };
}

impl<'s, 't, D: Device, R: Inlet + Drop, W1: Outlet + Drop, W2: Outlet + Drop> WasiHost<
    's,
    't,
    D,
    R,
    W1,
    W2,
> {
    ghost use Rattle.std.specs.Prelude.{IfSome, true};
    ghost use Rattle.std.specs.Io.KnownBytes.{IsAtEnd};
    ghost use Rattle.wasi_fd.specs.Table.{table_of};
    ghost use Rattle.wasi_bodies.specs.host.Worlds.{stream_failed};
    ghost use Rattle.wasi_calls.specs.host.Making.{IsNewHost, IsRefusedFor, parts_of};
    ghost use Rattle.wasi_calls.specs.host.Wanting.{WantsInput};

    /// A host over these parts, whose streams are the descriptors 0 to 2. It has the room for all its
    /// calls, none of which takes memory.
    ///
    /// It is refused as `Setting` where the settings break a rule, and hands all back.
    // Inlined into a session it would be taken apart into hundreds of pieces, which no one needs fast.
    #[inline(never)]
    pub fn new(
        alloc: Global,
        parts: HostParts<'s, 't, D, R, W1, W2>,
    ) -> Result<WasiHost<'s, 't, D, R, W1, W2>, RefusedHost<'s, 't, D, R, W1, W2>>
        ensures made { IfOk result (IsNewHost parts.entry) }
        ensures hands_back { IfErr result (λ r. r.parts ≡ parts.entry) }
        ensures refused { IfErr result (λ r. IsRefusedFor parts.entry r.fault) }
    {
        if !parts.settings.fits() {
            return Err(RefusedHost {
                parts,
                fault: HostFault::Setting,
            });
        }
        let Ok(descriptors) = Descriptors::new(alloc) else {
            return Err(RefusedHost {
                parts,
                fault: HostFault::Memory,
            });
        };
        let Ok(buffers) = Vec::with_capacity(alloc, MOST_BUFFERS) else {
            return Err(RefusedHost {
                parts,
                fault: HostFault::Memory,
            });
        };
        let Ok(piece) = Vec::with_capacity(alloc, INPUT_PIECE) else {
            return Err(RefusedHost {
                parts,
                fault: HostFault::Memory,
            });
        };
        let HostParts {
            settings,
            volume,
            input,
            out,
            err,
        } = parts;
        Ok(WasiHost {
            inner: Inner {
                volume,
                descriptors,
                input: Input {
                    reader: input,
                    failed: false,
                    ended: false,
                },
                out: Output {
                    writer: out,
                    failed: false,
                },
                err: Output {
                    writer: err,
                    failed: false,
                },
                settings,
                generator: None,
                interactive: None,
                buffers,
                piece,
            },
        })
    }

    /// The writer of descriptor 1, with what the guest has written there so far.
    pub fn out(&self) -> &W1
        ensures { result.now ≡ self.now.out.writer }
    {
        &self.inner.out.writer
    }

    /// The writer of descriptor 2, with what the guest has written there so far.
    pub fn err(&self) -> &W2
        ensures { result.now ≡ self.now.err.writer }
    {
        &self.inner.err.writer
    }

    /// The reader of descriptor 0.
    pub fn input(&self) -> &R
        ensures { result.now ≡ self.now.input.reader }
    {
        &self.inner.input.reader
    }

    /// Gives descriptor 0 another reader, and hands back the one that it had. Once the guest has seen the end of its input, neither
    /// has bytes left that it tells.
    pub fn replace_input(&mut self, reader: R) -> R
        requires { self.old.input.ended ≡ true → IsAtEnd (R.remaining reader) }
        ensures replaced { self.new ≡ record self.old {
          input = record self.old.input {
            reader =
                reader;
          };
        } }
        ensures before { result ≡ self.old.input.reader }
        ensures end { self.old.input.ended ≡ true → IsAtEnd (R.remaining result) }
    {
        mem::replace(&mut self.inner.input.reader, reader)
    }

    /// How many bytes of the input an `fd_read` with these arguments asks for, where it reads that and no check refuses it.
    pub fn wanted_input(&mut self, memory: &Memory, arguments: &[u64]) -> Option<u64>
        ensures wanted { IfSome result (WantsInput (table_of self.old.descriptors) memory.now
            arguments.now) }
        ensures kept { self.new ≡ self.old }
    {
        self.inner.wanted_input(memory, arguments)
    }

    /// The device of the volume, as it is now: what isn't committed isn't there yet.
    pub fn device(&self) -> &D
        ensures { result.now ≡ self.now.volume.device }
    {
        self.inner.volume.device()
    }

    /// Whether a read or a write of a stream has failed. It stays so.
    pub fn has_failed_stream(&self) -> bool
        ensures { result ≡ stream_failed self.now }
    {
        let inner = &self.inner;
        inner.input.failed || inner.out.failed || inner.err.failed
    }

    /// What the host was made of, as it is now.
    pub fn into_parts(self) -> HostParts<'s, 't, D, R, W1, W2>
        ensures { result ≡ parts_of self.entry }
    {
        let WasiHost { inner } = self;
        inner.into_parts()
    }
}

impl<'s, 't, D: Device, R: Inlet, W1: Outlet, W2: Outlet> WasiHost<'s, 't, D, R, W1, W2> {
    ghost use Rattle.std.specs.Prelude.{ℕ, OnOk, OnErr, Some};
    ghost use Rattle.wasi_fd.specs.Table.{table_of, streams};
    ghost use Rattle.path_walk.specs.Walk.{Asked};
    ghost use Rattle.wasi_bodies.specs.supplies.Random.{seeded};
    ghost use Rattle.wasi_calls.specs.host.Making.{HasPreopens, IsRefusedPreopen, HasNoMore, KeepsStreams, is_device};

    /// Opens the preopened directories of the settings, in order from 3 on. Each path begins with a
    /// slash and leads from the root to a directory.
    ///
    /// It is refused as `Preopen` where a path names no directory, and as `Device` where the volume
    /// has failed or fails; then none is opened.
    #[inline(never)]
    pub fn preopen(&mut self) -> Result<(), HostFault>
        requires { (n : ℕ) → table_of self.old.descriptors n ≡ streams n }
        ensures opened { D.honest self.old.volume.device
            → OnOk result (HasPreopens self.old.volume.tree self.old.settings.preopens.now
            (table_of self.new.descriptors)) }
        ensures refused { IfErr result (IsRefusedPreopen D.honest self.old self.new) }
        ensures closed { OnErr result (HasNoMore self.old self.new) }
        ensures reads { Asked D.honest D.disk D.size D.failures D.goes_on self.old.volume
            self.new.volume (is_device result) }
        ensures streams { KeepsStreams self.old self.new }
    {
        self.inner.preopen()
    }

    /// From now on random bytes have no end: they are those of `ChaCha20Rng::seed_from_u64(seed)`, and each `random_get`
    /// is one `fill_bytes` of as many bytes. The same seed gives the same bytes again. None of the settings' are taken.
    pub fn seed(&mut self, seed: u64)
        ensures { self.new ≡ record self.old { generator = Some (seeded seed) } }
    {
        self.inner.generator = Some(ChaCha20Rng::seed_from_u64(seed));
    }

    /// From now on a read of descriptor 0 gives what one read of the input finds, and none only at its end; and the guest is told
    /// of each stream whether it is one of these terminals: a character device, or else a file of no known type.
    pub fn interact(&mut self, terminals: Terminals)
        ensures { self.new ≡ record self.old { interactive = Some terminals } }
    {
        self.inner.interactive = Some(terminals);
    }
}

/// What a call that doesn't end the guest gives it.
fn value_of(answered: Result<(), Errno>) -> Answer
    ensures { result ≡ Answer.Value (record { 0 = errno_of answered }) }
{
    match answered {
        Ok(()) => Answer::Value(Errno::SUCCESS),
        Err(errno) => Answer::Value(errno),
    }
}

impl<'s, 't, D: Device, R: Inlet, W1: Outlet, W2: Outlet> Host for WasiHost<'s, 't, D, R, W1, W2> {
    ghost use Rattle.wasi_calls.specs.host.Links.{link};
    ghost use Rattle.wasi_bodies.specs.host.Worlds.{HostCalls, hearing};

    ghost links = { λ _. link };

    ghost calls = { HostCalls D.honest D.disk D.size D.failures D.goes_on R.remaining W1.contents W2.contents (hearing R.gave R.refused W1.took W1.refused W2.took W2.refused) };

    fn link(&self, module_name: &str, name: &str, func_type: &FuncType) -> Option<HostCall> {
        linking::call_of(module_name, name, func_type)
    }

    fn call(
        &mut self,
        memory: &mut Memory,
        used: u64,
        call: HostCall,
        arguments: &[u64],
    ) -> Answer {
        self.inner.volume.is_a_tree(); // a law for the contract
        if let HostCall::ProcExit = call {
            return Answer::Exit(word(arguments, 0));
        }
        value_of(self.inner.answer(memory, used, call, arguments))
    }
}

impl<'s, 't, D: Device, R: Inlet, W1: Outlet, W2: Outlet> VolumeHost
    for WasiHost<'s, 't, D, R, W1, W2> {
    ghost use Rattle.wasi_bodies.specs.host.Worlds.{Shows};

    ghost shows = { Shows };

    ghost disk = { λ h. D.disk h.volume.device };

    ghost numbers = { λ h. h.volume.numbers };

    ghost tree = { λ h. h.volume.tree };

    ghost honest = { λ h. D.honest h.volume.device };
}

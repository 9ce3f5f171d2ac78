//! The machine.

ghost use Rattle.std.specs.Prelude.{◌≡◌, ◌+◌, ◌^◌, ◌<◌, ◌/◌, IfOk, IfErr, length, slice_get, ◌*◌};
ghost use Rattle.wasm_store.specs.NotStarting.{RefusedFor};
ghost use Rattle.wasm_interp.specs.Promise.{Starts, Resumed};
ghost use Rattle.wasm_interp.specs.Frames.{frames_of};
ghost use Rattle.wasm_interp.specs.Machine.{limited};

use crate::begin::begin;
use crate::frames::Frame;
use crate::state::State;
use std::alloc::Global;
use std::marker::Model;
use wasm_places::tables::Prepared;
use wasm_steps::Pause;
use wasm_store::{Host, InstanceFault};
use wasm_valid::Valid;

/// A refused module, handed back with the reason.
#[derive(Drop)]
pub struct RefusedInstance<'a> {
    pub valid: Valid<'a>,
    pub fault: InstanceFault,
}

/// A machine that runs a valid module.
#[derive(Drop)]
pub struct Machine<'a> {
    prepared: Prepared<'a>,
    state: State,
}

impl<'a> Model for Machine<'a> {
    ghost use Rattle.wasm_interp.specs.Machine.{Snapshot};
    ghost use Rattle.wasm_interp.specs.internal.Running.{snapshot_of, IsMachine};

    ghost Value = { Snapshot };

    ghost view = { λ m. snapshot_of m.prepared m.state };

    ghost invariant = { λ m. IsMachine m.prepared m.state };
}

impl<'a> Machine<'a> {
    /// Instantiates the module (section 4.5.4) over the calls that the host links, with at most this many pages of memory.
    /// Room for 4,096 values and 256 functions at work is reserved. A refusal hands the module back.
    // Inlined into a session it would be taken apart into hundreds of pieces, which no one needs fast.
    #[inline(never)]
    pub fn new<H: Host>(
        alloc: Global,
        valid: Valid<'a>,
        pages: u32,
        host: &H,
    ) -> Result<Machine<'a>, RefusedInstance<'a>>
        ensures starts { IfOk result (λ m. Starts (H.links host.now) pages valid.entry m) }
        ensures most { IfOk result (λ m. m.most_values ≡ 134217728) }
        ensures refused { IfErr result (λ r. (r.valid ≡ valid.entry)
            × RefusedFor (H.links host.now) pages valid.entry r.fault) }
    {
        match begin(alloc, &valid, pages, host) {
            Ok(begun) => Ok(Machine {
                prepared: Prepared {
                    valid,
                    tables: begun.tables,
                },
                state: begun.state,
            }),
            Err(fault) => Err(RefusedInstance { valid, fault }),
        }
    }

    /// Goes on for at most this many units, until one host call is answered, the run ends, or the next step would take a
    /// unit that isn't left.
    pub fn resume<H: Host>(&mut self, host: &mut H, units: u64) -> Pause
        requires { self.old.used + units < 2 ^ 64 }
        ensures { Resumed H H.calls host.old host.new self.old self.new units result }
    {
        self.state.resume_making(&mut self.prepared, host, units)
    }

    /// The module that it runs.
    pub fn module(&self) -> &Valid<'a>
        ensures { result.now ≡ self.now.valid }
    {
        &self.prepared.valid
    }

    /// The units used so far.
    pub fn used(&self) -> u64
        ensures { result ≡ self.now.used }
    {
        self.state.used
    }

    /// How many pages of 65,536 bytes the guest's memory has.
    pub fn pages(&self) -> u32
        ensures { result ≡ length self.now.memory / 65536 }
    {
        self.state.memory.pages()
    }

    /// Sets how many values the guest's stack has at most, 8 bytes each: those of all functions at work, their locals among
    /// them. Without this call they are `MOST_VALUES`. A step that would leave more is refused memory as if the host had none,
    /// so that the run ends out of memory; so may be a call where as many are there. Fewer than 4,097, which find room anyway,
    /// count as 4,097. Room that the stack has had is never taken back, and counts too: set this before the run.
    pub fn limit_values(&mut self, most: usize)
        ensures { self.new ≡ limited most self.old }
    {
        self.state.limit_values(most);
    }

    /// The function at work with so many inside it: 0 is the innermost. Where the run has ended there are none, but of a trap
    /// those that were at work then.
    pub fn frame(&self, index: usize) -> Option<Frame>
        ensures { result ≡ slice_get (frames_of self.now) index }
    {
        self.state.frame(index)
    }

    /// The module that `new` took.
    pub fn into_valid(self) -> Valid<'a>
        ensures { result ≡ self.entry.valid }
    {
        self.prepared.valid
    }
}

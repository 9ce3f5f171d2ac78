//! Machines that share one prepared module.

ghost use Rattle.std.specs.Prelude.{◌≡◌, ◌+◌, ◌^◌, ◌<◌, ◌/◌, IfOk, IfErr, length, slice_get};
ghost use Rattle.wasm_store.specs.NotStarting.{RefusedFor};
ghost use Rattle.wasm_interp.specs.Promise.{Starts, Resumed};
ghost use Rattle.wasm_interp.specs.Frames.{frames_of};
ghost use Rattle.wasm_interp.specs.Machine.{limited};
ghost use Rattle.wasm_interp.specs.Shared.{AreCallsOf};

use crate::begin::{begin, begin_again};
use crate::first_entry::make_all_entries;
use crate::frames::Frame;
use crate::invoking::InvokedMachine;
use crate::machine::RefusedInstance;
use crate::plugin::PreparedPlugin;
use crate::state::State;
use std::alloc::{AllocError, Global};
use std::marker::Model;
use std::sync::Arc;
use wasm_places::tables::Prepared;
use wasm_steps::Pause;
use wasm_store::{Host, InstanceFault};
use wasm_valid::Valid;

/// A valid module with all that machines look up of it, made once for any number of them, in any threads.
#[derive(Drop)]
pub struct PreparedModule<'a> {
    prepared: Arc<Prepared<'a>, Global>,
    pages: u32,
}

impl<'a> Model for PreparedModule<'a> {
    ghost use Rattle.std.specs.Arc.{arc_value};
    ghost use Rattle.wasm_interp.specs.Shared.{Ready};
    ghost use Rattle.wasm_interp.specs.internal.Begun.{IsReady};

    ghost Value = { Ready };

    ghost view = { λ m. record {
      valid = (arc_value m.prepared).valid;
      pages = m.pages;
      calls = (arc_value m.prepared).tables.calls.items;
    } };

    ghost invariant = { λ m. IsReady (arc_value m.prepared) m.pages };
}

impl<'a> PreparedModule<'a> {
    /// Prepares a module for machines with at most this many pages of memory, over the calls that the host links. It is
    /// instantiated once to that end, so it is refused for what a machine would be refused for, and handed back then.
    pub fn new<H: Host>(
        alloc: Global,
        valid: Valid<'a>,
        pages: u32,
        host: &H,
    ) -> Result<PreparedModule<'a>, RefusedInstance<'a>>
        ensures module { IfOk result (λ m. (m.valid ≡ valid.entry) × (m.pages ≡ pages)) }
        ensures linked { IfOk result (λ m. AreCallsOf (H.links host.now) m.valid m.calls) }
        ensures refused { IfErr result (λ r. (r.valid ≡ valid.entry)
            × RefusedFor (H.links host.now) pages valid.entry r.fault) }
    {
        let tables = match begin(alloc, &valid, pages, host) {
            Ok(begun) => begun.tables,
            Err(fault) => return Err(RefusedInstance { valid, fault }),
        };
        let mut prepared = Prepared { valid, tables };
        make_all_entries(&mut prepared);
        match Arc::new(alloc, prepared) {
            Ok(prepared) => Ok(PreparedModule { prepared, pages }),
            Err(refused) => Err(RefusedInstance {
                valid: refused.value.valid,
                fault: InstanceFault::Memory,
            }),
        }
    }

    /// The module that was prepared.
    pub fn module(&self) -> &Valid<'a>
        ensures { result.now ≡ self.now.valid }
    {
        let prepared = &*self.prepared;
        &prepared.valid
    }

    /// How many pages a machine's memory has at most.
    pub fn pages(&self) -> u32
        ensures { result ≡ self.now.pages }
    {
        self.pages
    }

    /// The same module for one owner more, who may be in another thread.
    pub fn share(&self) -> Result<PreparedModule<'a>, AllocError>
        ensures { IfOk result (λ m. m ≡ self.now) }
    {
        let prepared = Arc::try_clone(&self.prepared)?;
        Ok(PreparedModule {
            prepared,
            pages: self.pages,
        })
    }
}

/// A machine that runs a prepared module, which may have other owners.
#[derive(Drop)]
pub struct SharedMachine<'a> {
    prepared: Arc<Prepared<'a>, Global>,
    state: State,
}

impl<'a> Model for SharedMachine<'a> {
    ghost use Rattle.std.specs.Arc.{arc_value};
    ghost use Rattle.wasm_interp.specs.Machine.{Snapshot};
    ghost use Rattle.wasm_interp.specs.internal.Running.{snapshot_of, IsMachine};

    ghost Value = { Snapshot };

    ghost view = { λ m. snapshot_of (arc_value m.prepared) m.state };

    ghost invariant = { λ m. IsMachine (arc_value m.prepared) m.state };
}

impl<'a> SharedMachine<'a> {
    /// Instantiates the module as `Machine::new` does, over a host that links it as the one did that it was prepared with.
    pub fn new<H: Host>(
        alloc: Global,
        ready: &PreparedModule<'a>,
        host: &H,
    ) -> Result<SharedMachine<'a>, InstanceFault>
        requires { AreCallsOf (H.links host.now) ready.now.valid ready.now.calls }
        ensures starts { IfOk result (λ m. Starts (H.links host.now) ready.now.pages ready.now.valid
            m) }
        ensures most { IfOk result (λ m. m.most_values ≡ 134217728) }
        ensures refused { IfErr result (λ e. RefusedFor (H.links host.now) ready.now.pages
            ready.now.valid e) }
    {
        let state = match begin_again(alloc, &*ready.prepared, ready.pages, host) {
            Ok(state) => state,
            Err(fault) => return Err(fault),
        };
        let prepared = Arc::try_clone(&ready.prepared)?;
        Ok(SharedMachine { prepared, state })
    }

    /// Goes on as `Machine::resume` does.
    pub fn resume<H: Host>(&mut self, host: &mut H, units: u64) -> Pause
        requires { self.old.used + units < 2 ^ 64 }
        ensures { Resumed H H.calls host.old host.new self.old self.new units result }
    {
        self.state.resume(&*self.prepared, host, units)
    }

    /// The module that it runs.
    pub fn module(&self) -> &Valid<'a>
        ensures { result.now ≡ self.now.valid }
    {
        let prepared = &*self.prepared;
        &prepared.valid
    }

    /// The units used so far.
    pub fn used(&self) -> u64
        ensures { result ≡ self.now.used }
    {
        self.state.used
    }

    /// How many pages of 65,536 bytes the guest's memory has.
    pub fn pages(&self) -> u32
        ensures { result ≡ length self.now.memory / 65536 }
    {
        self.state.memory.pages()
    }

    /// Sets how many values the guest's stack has at most, as `Machine::limit_values` does.
    pub fn limit_values(&mut self, most: usize)
        ensures { self.new ≡ limited most self.old }
    {
        self.state.limit_values(most);
    }

    /// The function at work with so many inside it, as `Machine::frame` tells it.
    pub fn frame(&self, index: usize) -> Option<Frame>
        ensures { result ≡ slice_get (frames_of self.now) index }
    {
        self.state.frame(index)
    }
}

/// Says that a type may go to another thread.
fn crosses<T: Send>() {}

/// A law: a prepared module may be shared by threads, and a machine over it may go to another.
pub fn shared_machines_cross() {
    crosses::<PreparedModule<'static>>();
    crosses::<SharedMachine<'static>>();
    crosses::<PreparedPlugin<'static>>();
    crosses::<InvokedMachine<'static>>();
}

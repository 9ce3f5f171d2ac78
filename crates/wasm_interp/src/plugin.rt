//! Modules that are prepared for instances whose exports are called.

ghost use Rattle.std.specs.Prelude.{◌≡◌, IfOk, IfErr};
ghost use Rattle.wasm_store.specs.Allocation.{with_embedder};
ghost use Rattle.wasm_store.specs.Allocating.{NotAllocated};
ghost use Rattle.wasm_interp.specs.Invoking.{Opens};
ghost use Rattle.wasm_interp.specs.Shared.{AreLinksOf};

use crate::begin::{open, open_again};
use crate::first_entry::make_all_entries;
use crate::invoking::InvokedMachine;
use crate::machine::RefusedInstance;
use std::alloc::{AllocError, Global};
use std::marker::Model;
use std::sync::Arc;
use wasm_places::tables::Prepared;
use wasm_store::{Host, InstanceFault};
use wasm_valid::Valid;

/// A valid module with all that its instances look up of it, made once for any number of them, in any threads.
#[derive(Drop)]
pub struct PreparedPlugin<'a> {
    prepared: Arc<Prepared<'a>, Global>,
    pages: u32,
}

impl<'a> Model for PreparedPlugin<'a> {
    ghost use Rattle.std.specs.Arc.{arc_value};
    ghost use Rattle.wasm_interp.specs.Shared.{Ready};
    ghost use Rattle.wasm_interp.specs.internal.Begun.{IsReadyToOpen};

    ghost Value = { Ready };

    ghost view = { λ m. record {
      valid = (arc_value m.prepared).valid;
      pages = m.pages;
      calls = (arc_value m.prepared).tables.calls.items;
    } };

    ghost invariant = { λ m. IsReadyToOpen (arc_value m.prepared) m.pages };
}

impl<'a> PreparedPlugin<'a> {
    /// Prepares a module for instances with at most this many pages of memory each. An import that the host doesn't link is a
    /// function of whoever embeds the machine, but for those of the module name `reserved`. The module is instantiated once to
    /// that end, so it is refused for what an instance would be refused for, and handed back then.
    pub fn new<H: Host>(
        alloc: Global,
        valid: Valid<'a>,
        pages: u32,
        host: &H,
        reserved: &str,
    ) -> Result<PreparedPlugin<'a>, RefusedInstance<'a>>
        ensures module { IfOk result (λ m. (m.valid ≡ valid.entry) × (m.pages ≡ pages)) }
        ensures linked { IfOk result (λ m. AreLinksOf
            (with_embedder (H.links host.now) reserved.now) m.valid m.calls) }
        ensures refused { IfErr result (λ r. (r.valid ≡ valid.entry)
            × NotAllocated (with_embedder (H.links host.now) reserved.now) pages valid.entry
            r.fault) }
    {
        let tables = match open(alloc, &valid, pages, host, reserved) {
            Ok(begun) => begun.tables,
            Err(fault) => return Err(RefusedInstance { valid, fault }),
        };
        let mut prepared = Prepared { valid, tables };
        make_all_entries(&mut prepared);
        match Arc::new(alloc, prepared) {
            Ok(prepared) => Ok(PreparedPlugin { prepared, pages }),
            Err(refused) => Err(RefusedInstance {
                valid: refused.value.valid,
                fault: InstanceFault::Memory,
            }),
        }
    }

    /// The module that was prepared.
    pub fn module(&self) -> &Valid<'a>
        ensures { result.now ≡ self.now.valid }
    {
        let prepared = &*self.prepared;
        &prepared.valid
    }

    /// How many pages an instance's memory has at most.
    pub fn pages(&self) -> u32
        ensures { result ≡ self.now.pages }
    {
        self.pages
    }

    /// The same module for one owner more, who may be in another thread.
    pub fn share(&self) -> Result<PreparedPlugin<'a>, AllocError>
        ensures { IfOk result (λ m. m ≡ self.now) }
    {
        let prepared = Arc::try_clone(&self.prepared)?;
        Ok(PreparedPlugin {
            prepared,
            pages: self.pages,
        })
    }

    /// Opens an instance, over a host that links it as the one did that it was prepared with. Its start function and an exported
    /// `_initialize` are about to run.
    pub fn open<H: Host>(
        &self,
        alloc: Global,
        host: &H,
        reserved: &str,
    ) -> Result<InvokedMachine<'a>, InstanceFault>
        requires { AreLinksOf (with_embedder (H.links host.now) reserved.now) self.now.valid
            self.now.calls }
        ensures opens { IfOk result (λ m. Opens (with_embedder (H.links host.now) reserved.now)
            self.now.pages self.now.valid m) }
        ensures refused { IfErr result (λ e. NotAllocated
            (with_embedder (H.links host.now) reserved.now) self.now.pages self.now.valid e) }
    {
        let state = match open_again(alloc, &*self.prepared, self.pages, host, reserved) {
            Ok(state) => state,
            Err(fault) => return Err(fault),
        };
        let prepared = Arc::try_clone(&self.prepared)?;
        Ok(InvokedMachine::of(prepared, state))
    }
}

//! Modules that are ready for instances whose input goes on.

ghost use Rattle.std.specs.Prelude.{◌≡◌, IfErr, IfOk};
ghost use Rattle.wasm_store.specs.Allocating.{NotAllocated};
ghost use Rattle.wasm_interp.specs.Invocations.{OpensBy};
ghost use Rattle.plugin_session.specs.States.{links};
ghost use Rattle.fed_session.specs.Waiting.{NotReady, parts_at};
ghost use Rattle.fed_session.specs.Feeding.{RepresentsWhole};

use crate::linking::{FedLinker, can_wait};
use std::alloc::{AllocError, Global};
use std::marker::Model;
use wasm_interp::{InvokedMachine, PreparedPlugin, RefusedInstance};
use wasm_store::InstanceFault;
use wasm_valid::Valid;

/// A valid module that is ready for instances: all that their machines look up of it was made once. It may have owners in other
/// threads.
#[derive(Drop)]
pub struct FedPlugin<'a> {
    pub(crate) module: PreparedPlugin<'a>,
    pub(crate) goes_on: bool,
}

impl<'a> Model for FedPlugin<'a> {
    ghost use Rattle.deferred_calls.specs.Machines.{AreParts};
    ghost use Rattle.plugin_session.specs.States.{links};
    ghost use Rattle.wasm_interp.specs.Shared.{AreLinksOf};
    ghost use Rattle.fed_session.specs.Waiting.{FedReady, deferred_at, parts_at};

    ghost Value = { FedReady };

    ghost view = { λ p. record { ready = p.module; goes_on = p.goes_on } };

    ghost invariant = { λ p. AreLinksOf (parts_at p.goes_on) p.module.valid p.module.calls
        × AreParts (deferred_at p.goes_on) p.module.valid links (parts_at p.goes_on) };
}

impl<'a> FedPlugin<'a> {
    /// Prepares a module for instances whose guest has at most this many pages of memory. Where their input goes on, a read that finds
    /// too little waits. An import that isn't WASI's is a function of the embedder; in a module whose reads wait none is of a module
    /// without a name. The module is instantiated once to that end, so it is refused for what an instance would be refused for, and
    /// handed back then.
    pub fn new(
        alloc: Global,
        valid: Valid<'a>,
        pages: u32,
        goes_on: bool,
    ) -> Result<FedPlugin<'a>, RefusedInstance<'a>>
        ensures module { IfOk result (λ p. (p.ready.valid ≡ valid.entry) × (p.ready.pages ≡ pages)
            × (p.goes_on ≡ goes_on)) }
        ensures refused { IfErr result (λ r. (r.valid ≡ valid.entry)
            × NotReady goes_on pages valid.entry r.fault) }
    {
        if !can_wait(goes_on, valid.module()) {
            return Err(RefusedInstance {
                valid,
                fault: InstanceFault::Import,
            });
        }
        let linker = FedLinker { goes_on };
        match PreparedPlugin::new(alloc, valid, pages, &linker, linker.reserved()) {
            Ok(module) => Ok(FedPlugin { module, goes_on }),
            Err(refused) => Err(refused),
        }
    }

    /// The same module for one owner more, who may be in another thread.
    pub fn share(&self) -> Result<FedPlugin<'a>, AllocError>
        ensures { IfOk result (λ p. p ≡ self.now) }
    {
        let module = self.module.share()?;
        Ok(FedPlugin {
            module,
            goes_on: self.goes_on,
        })
    }

    /// Opens a machine of the module, which leaves to its embedder what waits.
    pub(crate) fn open(&self, alloc: Global) -> Result<InvokedMachine<'a>, InstanceFault>
        ensures opens { IfOk result (OpensBy (RepresentsWhole self.now.goes_on) links
            self.now.ready.pages self.now.ready.valid) }
        ensures refused { IfErr result (NotAllocated (parts_at self.now.goes_on)
            self.now.ready.pages self.now.ready.valid) }
    {
        let linker = FedLinker {
            goes_on: self.goes_on,
        };
        self.module.open(alloc, &linker, linker.reserved())
    }

    /// The module that was prepared.
    pub fn module(&self) -> &Valid<'a>
        ensures { result.now ≡ self.now.ready.valid }
    {
        self.module.module()
    }

    /// How many pages the memory of a guest has at most: the settings of its instances have the same number.
    pub fn pages(&self) -> u32
        ensures { result ≡ self.now.ready.pages }
    {
        self.module.pages()
    }
}

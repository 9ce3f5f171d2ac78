//! Modules that are ready for instances.

ghost use Rattle.std.specs.Prelude.{◌≡◌, IfOk, IfErr};
ghost use Rattle.wasm_store.specs.Allocating.{NotAllocated};
ghost use Rattle.plugin_session.specs.Instance.{links};

use sandbox_core::Linker;
use std::alloc::{AllocError, Global};
use std::marker::Model;
use wasm_interp::{PreparedPlugin, RefusedInstance};
use wasm_valid::Valid;

/// The module name whose imports the host answers: none of its functions is the embedder's.
pub(crate) const WASI: &str = "wasi_snapshot_preview1";

/// A valid module that is ready for instances: all that their machines look up of it was made once. It may have owners in other
/// threads.
#[derive(Drop)]
pub struct Plugin<'a> {
    pub(crate) module: PreparedPlugin<'a>,
}

impl<'a> Model for Plugin<'a> {
    ghost use Rattle.wasm_interp.specs.Shared.{AreLinksOf, Ready};
    ghost use Rattle.plugin_session.specs.Instance.{links};

    ghost Value = { Ready };

    ghost view = { λ p. p.module };

    ghost invariant = { λ p. AreLinksOf links p.module.valid p.module.calls };
}

impl<'a> Plugin<'a> {
    /// Prepares a module for instances whose guest has at most this many pages of memory. An import that isn't WASI's is a
    /// function of the embedder. The module is instantiated once to that end, so it is refused for what an instance would be
    /// refused for, and handed back then.
    pub fn new(
        alloc: Global,
        valid: Valid<'a>,
        pages: u32,
    ) -> Result<Plugin<'a>, RefusedInstance<'a>>
        ensures module { IfOk result (λ p. (p.valid ≡ valid.entry) × (p.pages ≡ pages)) }
        ensures refused { IfErr result (λ r. (r.valid ≡ valid.entry)
            × NotAllocated links pages valid.entry r.fault) }
    {
        match PreparedPlugin::new(alloc, valid, pages, &Linker, WASI) {
            Ok(module) => Ok(Plugin { module }),
            Err(refused) => Err(refused),
        }
    }

    /// The same module for one owner more, who may be in another thread.
    pub fn share(&self) -> Result<Plugin<'a>, AllocError>
        ensures { IfOk result (λ p. p ≡ self.now) }
    {
        let module = self.module.share()?;
        Ok(Plugin { module })
    }

    /// The module that was prepared.
    pub fn module(&self) -> &Valid<'a>
        ensures { result.now ≡ self.now.valid }
    {
        self.module.module()
    }

    /// How many pages the memory of a guest has at most: the settings of its instances have the same number.
    pub fn pages(&self) -> u32
        ensures { result ≡ self.now.pages }
    {
        self.module.pages()
    }
}

//! A module that is run once, or prepared to be run again and again.

ghost use Rattle.std.specs.Prelude.{◌≡◌};
ghost use Rattle.sandbox_telling.specs.internal.Runnable.{IsReadyFor, module_in};

use sandbox_args::Run;
use sandbox_core::{SharedModule, Valid};
use std::alloc::Global;
use wasm_module::Module;

/// A valid module to be run.
#[derive(Drop)]
pub enum Runnable<'a> {
    /// All that its runs look up of it was made once.
    Prepared(SharedModule<'a>),
    /// Each run makes that anew.
    Bare(Valid<'a>),
}

impl<'a> Runnable<'a> {
    /// A module that is prepared for the runs of these words, where it can be. Where it can't, each run says why.
    pub fn new(alloc: Global, run: &Run<'_>, valid: Valid<'a>) -> Runnable<'a>
        ensures module { module_in result ≡ valid.entry }
        ensures ready { IsReadyFor run.now.limits.pages result }
    {
        match SharedModule::new(alloc, valid, run.limits.pages) {
            Ok(shared) => Runnable::Prepared(shared),
            Err(refused) => Runnable::Bare(refused.valid),
        }
    }

    /// The module itself.
    pub fn module(&self) -> &Module<'a>
        ensures { result.now ≡ module_in self.now }
    {
        match self {
            Runnable::Prepared(shared) => shared.module().module(),
            Runnable::Bare(valid) => valid.module(),
        }
    }
}

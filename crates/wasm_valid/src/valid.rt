//! A module that is known to be valid.

use std::marker::Model;
use wasm_module::Module;

/// A valid module (section 3.4.10). Only `validate` makes one.
#[derive(Drop)]
pub struct Valid<'a> {
    module: Module<'a>,
}

impl<'a> Model for Valid<'a> {
    ghost use Rattle.wasm_syntax.specs.declared.module.Module.{Module as ModuleValue};
    ghost use Rattle.wasm_valid.specs.Validity.{IsValid};

    ghost Value = { ModuleValue };

    ghost view = { λ v. v.module };

    ghost invariant = { λ v. IsValid v.module };
}

impl<'a> Valid<'a> {
    ghost use Rattle.std.specs.Prelude.{◌≡◌};
    ghost use Rattle.wasm_valid.specs.Validity.{IsValid};

    /// A module that was found valid.
    pub(crate) fn new(checked: Module<'a>) -> Valid<'a>
        requires { IsValid checked }
        ensures { result ≡ checked.entry }
    {
        Valid { module: checked }
    }

    /// The module, which is valid.
    pub fn module(&self) -> &Module<'a>
        ensures value { result.now ≡ self.now }
        ensures valid { IsValid self.now }
    {
        &self.module
    }

    /// The module that was validated.
    pub fn into_module(self) -> Module<'a>
        ensures { result ≡ self.entry }
    {
        let Valid { module } = self;
        module
    }
}

//! From bytes to a valid module.

ghost use Rattle.std.specs.Prelude.{◌≢◌, IfOk, IfErr};
ghost use Rattle.wasm_syntax.specs.Module.{Spells, SpellsWith};
ghost use Rattle.wasm_syntax.specs.declared.module.Module.{Module as ModuleValue};
ghost use Rattle.wasm_valid.specs.Validity.{IsValid};
ghost use Rattle.wasm_valid.specs.Refusal.{IsRefusal};

use std::alloc::Global;
use wasm_module::{LoadFault, Profile, decode_with, one_module_with};
use wasm_valid::{Valid, validate};

/// Decodes the module that the bytes spell, and validates it.
pub fn load(alloc: Global, bytes: &[u8]) -> Result<Valid<'_>, LoadFault>
    ensures found { IfOk result (λ v. Spells bytes.now v × IsValid v) }

    // Where it isn't memory that was wanting, the bytes spell no valid module.
    ensures no { IfErr result (λ e. e ≢ LoadFault.Memory → (m : ModuleValue) → Spells bytes.now m
        → IsValid m → ⊥) }

    // Another refusal than of an invalid module or for memory: the bytes spell no module at all.
    ensures refused { IfErr result (λ e. ¬ IsRefusal e → (m : ModuleValue) → Spells bytes.now m
        → ⊥) }
{
    load_with(alloc, bytes, Profile::Integers)
}

/// Decodes the module that the bytes spell, with what the profile takes, and validates it.
pub fn load_with(alloc: Global, bytes: &[u8], profile: Profile) -> Result<Valid<'_>, LoadFault>
    ensures found { IfOk result (λ v. SpellsWith profile bytes.now v × IsValid v) }

    // Where it isn't memory that was wanting, the bytes spell no valid module.
    ensures no { IfErr result (λ e. e ≢ LoadFault.Memory → (m : ModuleValue)
        → SpellsWith profile bytes.now m → IsValid m → ⊥) }

    // Another refusal than of an invalid module or for memory: the bytes spell no module at all.
    ensures refused { IfErr result (λ e. ¬ IsRefusal e → (m : ModuleValue)
        → SpellsWith profile bytes.now m → ⊥) }
{
    let module = decode_with(alloc, bytes, profile)?;
    one_module_with(); // a law for the contract: what is found not valid is all that the bytes spell
    validate(alloc, module)
}

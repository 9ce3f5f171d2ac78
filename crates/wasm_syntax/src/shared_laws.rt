//! What the profiles have in common.

ghost use Rattle.std.specs.Prelude.{ℕ, List};
ghost use Rattle.wasm_syntax.specs.Floatless.{HasNoFloat};
ghost use Rattle.wasm_syntax.specs.Module.{Spells, SpellsWith};
ghost use Rattle.wasm_syntax.specs.declared.module.Module.{Module as ModuleValue};
ghost use Rattle.wasm_syntax.specs.declared.profile.Profile.TheVariants.{Floats};

/// What spells a module without floats spells the same module where floats are taken.
pub fn floats_take_more()
    ensures { (bytes : List ℕ) (m : ModuleValue) → Spells bytes m → SpellsWith Floats bytes m }
{}

/// A module without floats has no type of floats, and no instruction that takes or gives one.
pub fn integers_alone()
    ensures { (bytes : List ℕ) (m : ModuleValue) → Spells bytes m → HasNoFloat m }
{}

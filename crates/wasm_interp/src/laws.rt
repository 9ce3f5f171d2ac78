//! Laws of what a machine shows, over definitions only.

ghost use Rattle.std.specs.Prelude.{◌≡◌, ℕ, ◌≤◌, None};
ghost use Rattle.wasm_steps.specs.Configuration.{Configuration, Instance, code_of, store_of, values_in};
ghost use Rattle.wasm_interp.specs.Machine.{limited, outcome_of, Represents, ShowsStore, Snapshot};

/// A law: the memory, table, globals and units that a machine shows are those of the store of each configuration that it
/// stands for.
pub fn machines_show_their_stores()
    ensures { (s : Snapshot) (i : Instance) (c : Configuration) → Represents s i c
        → ShowsStore s (store_of c) }
{}

/// A law: while its run goes on, each configuration that a machine stands for has at most the machine's most values.
pub fn machines_keep_to_their_values()
    ensures { (s : Snapshot) (i : Instance) (c : Configuration) → Represents s i c
        → outcome_of s ≡ None → values_in (code_of c) ≤ s.most_values }
{}

/// A law: a limit on values changes no configuration that a machine stands for.
pub fn limits_change_no_configuration()
    ensures { (most : ℕ) (s : Snapshot) (i : Instance) (c : Configuration) → Represents s i c
        → Represents (limited most s) i c }
{}

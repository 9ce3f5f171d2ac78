//! By what snapshots of a machine stand for configurations.

ghost use Rattle.wasm_steps.specs.Configuration.{Instance, Configuration};
ghost use Rattle.wasm_interp.specs.Invocations.{TellsStores};
ghost use Rattle.wasm_interp.specs.Machine.{Snapshot, Represents};

/// By what snapshots of a machine stand for configurations of an instance. What a machine promises takes this from each call to the
/// next, so a law over several calls holds whatever it is; the machine's own is that of `OwnMeaning`.
pub trait SnapshotMeaning {
    /// The snapshot stands for this configuration of this instance.
    ghost stands: { Snapshot → Instance → Configuration → Type 0 };
}

/// The machine's own.
pub struct OwnMeaning;

impl SnapshotMeaning for OwnMeaning {
    ghost stands = { Represents };
}

/// A law: the machine's own tells of the store. Its memory is what the machine shows, and its globals are in the ranges of their types.
pub fn own_meaning_tells_stores()
    ensures { TellsStores Represents }
{}

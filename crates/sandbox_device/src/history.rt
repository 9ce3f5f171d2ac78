//! What was done to a device since it was made. It exists only in proofs.

ghost use Rattle.std.specs.Prelude.{◌≡◌, ◌++◌, ◌∷◌, [], List, ℕ, Bool, true, false};
ghost use Rattle.std.specs.Borrow.{ftrue};
ghost use Rattle.vol_sector.specs.declared.record.Operation.{Operation as Done};

use crate::sectors::Sectors;
use std::marker::Model;
use vol_sector::Operation;

/// The sectors that a device began with, the writes and syncs that were done to it, in order, and of each operation, the newest
/// first, whether it is one of those. It takes no memory and does nothing at run time.
#[derive(Drop)]
pub(crate) struct History {
    ghost first: { List (List ℕ) },
    ghost done: { List Done },
    ghost outcomes: { List Bool },
}

impl Model for History {
    ghost also_owns = { λ _. ftrue };
}

impl History {
    /// Nothing was done to these yet.
    pub(crate) fn of(sectors: &Sectors) -> History
        ensures { (result.first ≡ sectors.now) × (result.done ≡ []) × (result.outcomes ≡ []) }
    {
        History {}
    }

    /// A read more.
    pub(crate) fn quiet(&self) -> History
        ensures { (result.first ≡ self.now.first) × (result.done ≡ self.now.done)
            × (result.outcomes ≡ false ∷ self.now.outcomes) }
    {
        History {}
    }

    /// A write or a sync more.
    pub(crate) fn and(&self, operation: &Operation) -> History
        ensures { (result.first ≡ self.now.first)
            × (result.done ≡ self.now.done ++ operation.now ∷ [])
            × (result.outcomes ≡ true ∷ self.now.outcomes) }
    {
        History {}
    }
}

// It has nothing but what proofs see.
unsafe impl Send for History {}

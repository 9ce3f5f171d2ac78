//! What a file's sectors were. It exists only in proofs.

ghost use Rattle.std.specs.Prelude.{◌≡◌, ◌∷◌, [], List, ℕ};
ghost use Rattle.std.specs.Borrow.{ftrue};

use crate::sectors::Sectors;
use std::marker::Model;

/// The sectors of a file before each write since its last sync that succeeded, and what those were before each
/// operation, the newest first. It takes no memory and does nothing at run time.
#[derive(Drop)]
pub(crate) struct Moments {
    ghost unsynced: { List (List (List ℕ)) },
    ghost times: { List (List (List (List ℕ))) },
}

impl Model for Moments {
    ghost also_owns = { λ _. ftrue };
}

impl Moments {
    /// Nothing was done yet. What was written before and is not synced is not known.
    pub(crate) fn new() -> Moments
        ensures { result.times ≡ [] }
    {
        Moments {}
    }

    /// After an operation that wrote nothing, before which there were these sectors.
    pub(crate) fn after_reading(&self, sectors: &Sectors) -> Moments
        ensures { (result.unsynced ≡ self.now.unsynced) × (result.times
            ≡ (sectors.now ∷ self.now.unsynced) ∷ self.now.times) }
    {
        Moments {}
    }

    /// After a write, before which there were these sectors.
    pub(crate) fn after_writing(&self, sectors: &Sectors) -> Moments
        ensures { (result.unsynced ≡ sectors.now ∷ self.now.unsynced) × (result.times
            ≡ (sectors.now ∷ self.now.unsynced) ∷ self.now.times) }
    {
        Moments {}
    }

    /// After a sync, before which there were these sectors.
    pub(crate) fn after_syncing(&self, sectors: &Sectors) -> Moments
        ensures { (result.unsynced ≡ []) × (result.times
            ≡ (sectors.now ∷ self.now.unsynced) ∷ self.now.times) }
    {
        Moments {}
    }
}

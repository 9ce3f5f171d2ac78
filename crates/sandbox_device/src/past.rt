//! The sectors of a device before each operation on it. It exists only in proofs.

ghost use Rattle.std.specs.Prelude.{◌≡◌, [], List, ℕ};
ghost use Rattle.std.specs.Borrow.{ftrue};

use std::marker::Model;

/// The sectors of a device before each operation on it, the newest first. It takes no memory and
/// does nothing at run time.
#[derive(Drop)]
pub(crate) struct Past {
    ghost images: { List (List (List ℕ)) },
}

impl Model for Past {
    ghost also_owns = { λ _. ftrue };
}

impl Past {
    /// Nothing was done yet.
    pub(crate) fn new() -> Past
        ensures { result.images ≡ [] }
    {
        Past {}
    }
}

// It has nothing but what proofs see.
unsafe impl Send for Past {}

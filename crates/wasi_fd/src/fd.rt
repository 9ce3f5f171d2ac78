//! The numbers of descriptors.

ghost use Rattle.std.specs.Prelude.{◌≡◌, ℕ};

use std::marker::Model;

/// The number of a descriptor (`fd` of WASI preview 1), be it open or not. Clauses see it as that number.
#[derive(Clone, Copy, Debug, PartialEq, Eq)]
pub struct Fd {
    number: u32,
}

impl Model for Fd {
    ghost Value = { ℕ };

    ghost view = { λ fd. fd.number };

    ghost inverse = { λ n. record { number = n } };
}

impl Fd {
    /// This number, as that of a descriptor.
    pub fn new(number: u32) -> Fd
        ensures { result ≡ number }
    {
        Fd { number }
    }

    /// The number itself, as the guest has it.
    pub fn number(self) -> u32
        ensures { result ≡ self }
    {
        self.number
    }
}

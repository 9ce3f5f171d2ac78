//! The globals of an instance.

use std::marker::Model;

/// The values of globals (section 4.2.9), which every contract sees as a list of numbers: an i32 is below 2 ^ 32. What
/// type a global has is said by its module.
#[derive(Drop)]
pub struct Globals {
    values: Vec<u64>,
}

impl Model for Globals {
    ghost use Rattle.std.specs.Prelude.{ℕ, List};

    ghost Value = { List ℕ };

    ghost view = { λ g. g.values.items };
}

impl Globals {
    ghost use Rattle.std.specs.Prelude.{◌≡◌, ◌<◌, ◌≤◌, length, slice_get, slice_set};
    ghost use Rattle.std.specs.Bool.{OnTrue, OnFalse};

    /// Globals of these values.
    pub fn new(values: Vec<u64>) -> Globals
        ensures { result ≡ values.items }
    {
        Globals { values }
    }

    /// How many there are.
    pub fn len(&self) -> usize
        ensures { result ≡ length self.now }
    {
        self.values.len()
    }

    /// The values, by index.
    pub fn as_slice(&self) -> &[u64]
        ensures { result.now ≡ self.now }
    {
        self.values.as_slice()
    }

    /// The value of a global, if there is one of this index.
    pub fn get(&self, index: u32) -> Option<u64>
        ensures { result ≡ slice_get self.now index }
    {
        self.values.get(index as usize).copied()
    }

    /// Sets the value of a global, if there is one of this index.
    pub fn set(&mut self, index: u32, value: u64) -> bool
        ensures inside { OnTrue result ((index < length self.old)
            × (self.new ≡ slice_set self.old index value)) }
        ensures outside { OnFalse result ((length self.old ≤ index) × (self.new ≡ self.old)) }
    {
        match self.values.get_mut(index as usize) {
            Some(place) => {
                *place = value;
                true
            }
            None => false,
        }
    }
}

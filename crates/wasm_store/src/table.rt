//! The table of an instance.

ghost use Rattle.std.specs.Prelude.{◌≡◌, length, map, Some};

use std::alloc::{AllocError, Global};
use std::marker::Model;

/// The elements of a table (section 4.2.7), which every contract sees as a list: each holds a function's index, or
/// nothing yet.
#[derive(Drop)]
pub struct Table {
    elements: Vec<Option<u32>>,
}

impl Model for Table {
    ghost use Rattle.std.specs.Prelude.{ℕ, List, Option};

    ghost Value = { List (Option ℕ) };

    ghost view = { λ t. t.elements.items };
}

impl Table {
    ghost use Rattle.std.specs.Prelude.{ℕ, ◌+◌, ◌<◌, ◌≤◌, replicate, None, IfOk, slice_get};
    ghost use Rattle.std.specs.Bool.{OnTrue, OnFalse};
    ghost use Rattle.wasm_store.specs.Elements.{with_functions};

    /// A table of this many elements that hold nothing.
    pub fn new(alloc: Global, size: u32) -> Result<Table, AllocError>
        ensures { IfOk result (λ t. t ≡ replicate size None) }
    {
        Ok(Table {
            elements: vec![in alloc; None; size as usize]?,
        })
    }

    /// How many elements there are.
    pub fn len(&self) -> usize
        ensures { result ≡ length self.now }
    {
        self.elements.as_slice().len()
    }

    /// The element at an index, if there is one.
    pub fn get(&self, index: u32) -> Option<Option<u32>>
        ensures { result ≡ slice_get self.now index }
    {
        self.elements.get(index as usize).copied()
    }

    /// Sets the elements from a place on to these functions, or none where they would pass the end.
    pub fn set(&mut self, start: usize, functions: &[u32]) -> bool
        ensures inside { OnTrue result ((start + length functions.now ≤ length self.old)
            × (self.new ≡ with_functions self.old start functions.now)) }
        ensures outside { OnFalse result ((length self.old < start + length functions.now)
            × (self.new ≡ self.old)) }
    {
        let len = functions.len();
        if self.elements.len() < len || self.elements.len() - len < start {
            return false;
        }
        set_all(
            &mut self.elements.as_mut_slice()[start..start + len],
            functions,
        );
        true
    }
}

/// Sets elements to functions, one after the other.
fn set_all(elements: &mut [Option<u32>], functions: &[u32])
    requires { length functions.now ≡ length elements.old }
    ensures { elements.new ≡ map Some functions.now }
{
    for (i, function) in functions.iter().enumerate() {
        elements[i] = Some(*function);
    }
}

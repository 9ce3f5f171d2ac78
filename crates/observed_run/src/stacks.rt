//! Stacks of functions as a tree.

ghost use Rattle.std.specs.Prelude.{ℕ, ◌≡◌, ◌+◌, ◌-◌, ◌<◌, ◌^◌, ◌≤◌, [], ◌∷◌, ◌++◌, ◌⊎◌, Some, suc, true, false, IfOk, IfSome, length, slice_get, slice_index, sum, drop, length, option_map, replicate};
ghost use Rattle.observed_run.specs.Stacks.{AddsUnits, Grows, IsNodeOf, IsStack};

use indexmap::IndexSet;
use std::alloc::{AllocError, Global};
use std::marker::Model;

/// A function, on top of those of the node that called it.
#[derive(Clone, Copy, PartialEq, Eq, Hash)]
pub struct Call {
    pub caller: usize,
    pub function: usize,
}

/// Stacks of functions, each with units of fuel that were taken there.
///
/// It grows by a node for each stack that is new, up to a bound; what would be more is added to the function that called.
#[derive(Drop)]
pub struct FuelProfile {
    calls: IndexSet<Call>,
    units: Vec<u64>,
    /// How many functions the stacks of further nodes may have, all together.
    room: u64,
    is_cut: bool,
}

impl Model for FuelProfile {
    ghost use Rattle.std.specs.Prelude.{◌≡◌, ◌≤◌, ℕ, suc, Some, length, slice_get};
    ghost use Rattle.observed_run.specs.Stacks.{Stacks};
    ghost use Rattle.observed_run.specs.declared.stacks.Call.{Call};

    ghost Value = { Stacks };

    ghost view = { λ p. record { calls = p.calls.keys; units = p.units.items; is_cut = p.is_cut; room = p.room } };

    ghost invariant = { λ p. (length p.units.items ≡ suc (length p.calls.keys))
        × ((k : ℕ) (call : Call) → slice_get p.calls.keys k ≡ Some call → call.caller ≤ k) };
}

impl FuelProfile {
    /// No stack yet, and room for stacks with so many functions, all together.
    pub fn new(alloc: Global, room: u64) -> Result<FuelProfile, AllocError>
        ensures { IfOk result (λ p. (p.calls ≡ []) × (p.units ≡ 0 ∷ []) × (p.is_cut ≡ false)
            × (p.room ≡ room)) }
    {
        let mut units = Vec::new(alloc);
        units.push(0)?;
        Ok(FuelProfile {
            calls: IndexSet::new(alloc),
            units,
            room,
            is_cut: false,
        })
    }

    /// Adds units to a node.
    pub fn add(&mut self, node: usize, units: u64)
        requires there { node < length self.old.units }
        requires few { sum self.old.units + units < 2 ^ 64 }
        ensures { AddsUnits self.old self.new node units }
    {
        self.units[node] += units;
    }

    /// The node of a function that a node's function called, where there is one or can be one. So many functions are at work there.
    #[tactic(auto, using(crate::proofs::Trees::callers_below))]
    fn called(&mut self, call: Call, depth: u64) -> Option<usize>
        requires called { call.caller < length self.old.units }
        requires some { 0 < depth }
        ensures grows { Grows self.old self.new }
        ensures found { IfSome result (λ node. (k : ℕ) × (node ≡ suc k)
            × (slice_get self.new.calls k ≡ Some call)) }
        ensures there { IfSome result (λ node. node < length self.new.units) }
        ensures whole { self.new.is_cut ≡ self.old.is_cut }
    {
        if let Some(index) = self.calls.get_index_of(&call) {
            return Some(index + 1);
        }
        if depth > self.room || self.units.reserve(1).is_err() {
            return None;
        }
        match self.calls.insert_full(call) {
            Ok((index, _)) => {
                self.room -= depth;
                self.units.push_reserved(0);
                Some(index + 1)
            }
            Err(_) => None,
        }
    }

    /// The node where no function is at work.
    pub fn bottom(&self) -> usize
        ensures is { result ≡ 0 }
        ensures there { result < length self.now.units }
    {
        prove!(!self.units.is_empty());
        0
    }

    /// Says that units are added to a function below the one that took them, as where the functions at work can't be told.
    pub fn cut(&mut self)
        ensures { self.new ≡ record self.old { is_cut = true } }
    {
        self.is_cut = true;
    }

    /// Whether units were added to a function below the one that took them.
    pub fn is_cut(&self) -> bool
        ensures { result ≡ self.now.is_cut }
    {
        self.is_cut
    }

    /// The node of the functions that are at work, the innermost first. Where there is no room for it, that of the outermost of them.
    pub fn enter(&mut self, functions: &[usize]) -> usize
        ensures grows { Grows self.old self.new }
        ensures node { IsNodeOf self.new functions.now result }
        ensures there { result < length self.new.units }
    {
        let mut node = self.bottom();
        for depth in 0..functions.len() {
            let call = Call {
                caller: node,
                function: functions[functions.len() - 1 - depth],
            };
            match self.called(call, depth as u64 + 1) {
                Some(above) => node = above,
                None => {
                    self.cut();
                    return node;
                }
            }
        }
        node
    }

    /// The function of the node of this index, the bottom not counted; none past the last.
    pub fn function(&self, index: usize) -> Option<usize>
        ensures { result ≡ option_map (λ call. call.function) (slice_get self.now.calls index) }
    {
        let call = self.calls.get_index(index)?;
        Some(call.function)
    }

    /// How many nodes there are, the bottom among them.
    pub(crate) fn nodes(&self) -> usize
        ensures { result ≡ length self.now.units }
    {
        self.units.len()
    }

    /// The units that were taken at a node.
    pub(crate) fn units_at(&self, node: usize) -> u64
        requires { node < length self.now.units }
        ensures { result ≡ slice_index self.now.units node }
    {
        self.units[node]
    }

    /// The function of a node, and the node that called it.
    fn call_at(&self, node: usize) -> Call
        requires { (0 < node) × (node < length self.now.units) }
        ensures there { slice_get self.now.calls (node - 1) ≡ Some result }
        ensures below { result.caller < node }
    {
        self.calls[node - 1]
    }

    /// The functions that are at work at a node, the innermost first.
    pub(crate) fn functions_at(&self, alloc: Global, node: usize) -> Result<Vec<usize>, AllocError>
        requires { node < length self.now.units }
        ensures { IfOk result (λ functions. IsStack self.now.calls node functions.items) }
    {
        let mut functions = Vec::new(alloc);
        let mut at = node;
        while at > 0 {
            let call = self.call_at(at);
            functions.push(call.function)?;
            at = call.caller;
        }
        Ok(functions)
    }
}

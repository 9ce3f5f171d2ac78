//! Functions that are entered from outside.

use std::marker::Model;

/// The functions that are still to be entered from outside, which every contract sees as a list: the start function, if
/// there is one, and then `_start`, or `_initialize`, if there is one; or an exported function that was invoked with arguments.
#[derive(Drop)]
pub struct Pending {
    start: Option<u32>,
    main: Option<u32>,
    invoked: Option<u32>,
}

impl Model for Pending {
    ghost use Rattle.std.specs.Prelude.{◌++◌};
    ghost use Rattle.std.specs.Option.{option_to_list};
    ghost use Rattle.wasm_operands.specs.internal.Awaited.{Awaited};

    ghost Value = { Awaited };

    ghost view = { λ p. record { functions = option_to_list p.start ++ option_to_list p.main; invoked = p.invoked } };
}

impl Pending {
    ghost use Rattle.std.specs.Prelude.{◌≡◌, [], ◌∷◌, ◌++◌, None, Some, IfNone};
    ghost use Rattle.std.specs.Bool.{OnTrue, OnFalse};
    ghost use Rattle.std.specs.Option.{option_to_list};

    /// None of the two has been entered.
    pub fn new(start: Option<u32>, main: Option<u32>) -> Pending
        ensures { result ≡ record {
          functions = option_to_list start ++ option_to_list main;
          invoked
              = None;
        } }
    {
        Pending {
            start,
            main,
            invoked: None,
        }
    }

    /// An exported function is entered with arguments.
    pub fn invoked(function: u32) -> Pending
        ensures { result ≡ record { functions = function ∷ []; invoked = Some function } }
    {
        Pending {
            start: None,
            main: Some(function),
            invoked: Some(function),
        }
    }

    /// Whether none is left.
    pub fn is_empty(&self) -> bool
        ensures none { OnTrue result (self.now.functions ≡ []) }
        ensures some { OnFalse result (self.now.functions ≡ [] → ⊥) }
    {
        self.start.is_none() && self.main.is_none()
    }

    /// The next one, which is entered now.
    pub fn take(&mut self) -> Option<u32>
        ensures taken { self.old.functions ≡ option_to_list result ++ self.new.functions }
        ensures none { IfNone result (self.new.functions ≡ []) }
        ensures invoked { self.new.invoked ≡ self.old.invoked }
    {
        if let Some(function) = self.start {
            self.start = None;
            return Some(function);
        }
        let function = self.main;
        self.main = None;
        function
    }
}

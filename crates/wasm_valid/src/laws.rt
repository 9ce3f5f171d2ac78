//! Laws about the typing that `Valid` stands for.

ghost use Rattle.std.specs.Prelude.{◌↔◌, List};
ghost use Rattle.wasm_syntax.specs.declared.instruction.ValueType.{ValueType};
ghost use Rattle.wasm_syntax.specs.Nested.{Instructions};
ghost use Rattle.wasm_valid.specs.Typing.{Context, Labels, Typed};
ghost use Rattle.wasm_valid.specs.Standard.{HasType};

/// Typing by recursion over nested code, which `validate` and `Valid` name, is typing by the rules
/// of the standard (sections 3.3.5 and 3.3.6): instructions in a row, each at its type, with the
/// same types below on both sides. Runs nothing.
pub fn typed_by_rules()
    ensures { (c : Context) (ls : Labels) (code : Instructions) (a b : List ValueType)
        → (HasType c ls code a b ↔ Typed c ls code a b) }
{}

//! The parts of a module.

ghost use Rattle.std.specs.Prelude.{◌≤◌, All, length};

use wasm_module::{FuncType, GlobalType};

/// The parts of a module by their indices, the imported ones first.
#[derive(Drop)]
pub struct ModuleContext<'m> {
    pub types: &'m [FuncType],
    /// The index of each function's type.
    pub type_indices: Vec<u32>,
    pub globals: Vec<GlobalType>,
    pub has_table: bool,
    pub has_memory: bool,
    ghost one_result: { All (λ f. length f.results ≤ 1) types.now },
}

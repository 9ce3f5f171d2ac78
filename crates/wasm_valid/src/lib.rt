//! Validation of decoded modules.
#![tactic(auto)]

mod bodies;
mod body_validator;
mod control_frames;
mod effects;
mod function_context;
mod instructions;
mod laws;
mod locals;
mod module_context;
mod module_rules;
mod names;
mod operands;
mod places;
mod valid;
mod validating;

pub use laws::typed_by_rules;
pub use module_rules::imported_functions;
pub use places::{instruction_offset, instruction_place};
pub use valid::Valid;
pub use validating::validate;
pub use wasm_module::LoadFault;

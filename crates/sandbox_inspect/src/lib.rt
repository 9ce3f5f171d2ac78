//! What a module is, told as lines `key:value`: its imports and exports, or why it is refused, and in which function.
#![tactic(auto)]

mod bodies;
mod culprits;
mod functions;
mod links;
mod listing;
mod naming;
mod places;
mod refusal;
mod sections;
mod sites;
mod skipping;
mod starts;
mod surveying;
mod words;

pub use culprits::{add_function_at, add_refused_import};
pub use links::Links;
pub use naming::{add_called, called};
pub use places::{function_name, instruction_offset, instructions_stand_in_the_bytes};
pub use sites::add_site;
pub use starts::ModuleBytes;
pub use surveying::survey;

//! What a WebAssembly module is: instructions, types, sections and what of them a profile takes (chapter 2 of the standard).

#![tactic(auto)]

pub mod accesses;
pub mod fault;
pub mod instruction;
pub mod items;
pub mod module;
pub mod number;
pub mod open_blocks;
pub mod profile;
pub mod shared_laws;

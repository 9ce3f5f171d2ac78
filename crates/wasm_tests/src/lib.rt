//! Tests of the decoder, the validator and the crates that modules are run with, through their public
//! calls only.
#![tactic(auto)]

mod program;

pub use program::HELLO;

#[cfg(test)]
mod tests;

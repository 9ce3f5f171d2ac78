//! What no contract says: that calls succeed where memory is ample, what is printed, and answers that were known from
//! outside.

mod branches;
mod edges_32;
mod edges_64;
mod floats;
mod frames;
mod guests;
mod instances;
mod memories;
mod modules;
mod operators;
mod sections;
mod surveys;
mod texts;

use std::alloc::Global;
use std::process::Abort;
use wasm_module::{LoadFault, decode};
use wasm_valid::{Valid, validate};

/// Ends the test where a row isn't as wanted. The loops over rows call it in place of an assertion of their own, since each
/// that prints is expensive to prove.
fn assert_row(rt: &impl Abort, row: usize, as_wanted: bool) {
    assert!(rt; as_wanted, "row {row}");
}

/// Ends the test, for this reason.
fn fail(rt: &impl Abort, reason: &str) {
    panic!(rt; "{reason}");
}

/// The valid module of these bytes.
fn loaded(alloc: Global, bytes: &[u8]) -> Result<Valid<'_>, LoadFault> {
    validate(alloc, decode(alloc, bytes)?)
}

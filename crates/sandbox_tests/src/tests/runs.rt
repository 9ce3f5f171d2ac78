//! Whole runs of guests that a compiler made.

use super::kernels::{KERNELS, Kernel};
use super::sessions::{assert_none, ends};
use sandbox_core::Outcome;
use std::alloc::Global;
use std::process::Abort;

/// Whether the guest ends with its last unit and has printed this, and a unit less is not enough.
fn takes(rt: &impl Abort, alloc: Global, kernel: &Kernel) -> bool {
    let (module, units, printed) = kernel;
    let less = units.saturating_sub(1);
    ends(
        rt,
        alloc,
        &(module, *units, Outcome::Exited(0), *units),
        printed,
    ) && ends(
        rt,
        alloc,
        &(module, less, Outcome::OutOfFuel, less),
        printed,
    )
}

/// The first kernel that takes other units.
fn wrong_kernel(rt: &impl Abort, alloc: Global) -> Option<usize> {
    for (i, kernel) in KERNELS.iter().enumerate() {
        if !takes(rt, alloc, kernel) {
            return Some(i);
        }
    }
    None
}

#[test]
fn kernels_take_exactly_their_units(rt: HostRuntime) {
    assert_none(&rt, wrong_kernel(&rt, rt.alloc()));
}

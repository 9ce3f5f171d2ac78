//! The texts of faults and traps.

use super::assert_row;
use std::alloc::Global;
use wasm_num::Trap;
use wasm_store::InstanceFault;

fn prints_fault(alloc: Global, fault: InstanceFault, text: &str) -> bool {
    match format!(in alloc; "{fault}") {
        Ok(found) => found.as_str() == text,
        Err(_) => false,
    }
}

#[test]
fn prints_faults(rt: HostRuntime) {
    for (i, (fault, text)) in [
        (InstanceFault::Import, "fault 13"),
        (InstanceFault::NoStart, "fault 14"),
        (InstanceFault::DataOutOfBounds, "fault 20"),
        (InstanceFault::ElementOutOfBounds, "fault 21"),
        (InstanceFault::PageLimit, "fault 22"),
        (InstanceFault::Memory, "out of memory"),
    ]
    .iter()
    .enumerate()
    {
        assert_row(&rt, i, prints_fault(rt.alloc(), *fault, text));
    }
}

fn prints_trap(alloc: Global, trap: Trap, text: &str) -> bool {
    match format!(in alloc; "{trap}") {
        Ok(found) => found.as_str() == text,
        Err(_) => false,
    }
}

#[test]
fn prints_traps(rt: HostRuntime) {
    for (i, (trap, text)) in [
        (Trap::Unreachable, "unreachable"),
        (Trap::DivideByZero, "integer divide by zero"),
        (Trap::IntegerOverflow, "integer overflow"),
        (Trap::OutOfBoundsMemory, "out of bounds memory access"),
        (Trap::UndefinedElement, "undefined element"),
        (Trap::UninitializedElement, "uninitialized element"),
        (Trap::IndirectCallMismatch, "indirect call type mismatch"),
        (Trap::CallStackExhausted, "call stack exhausted"),
        (Trap::InvalidConversion, "invalid conversion to integer"),
    ]
    .iter()
    .enumerate()
    {
        assert_row(&rt, i, prints_trap(rt.alloc(), *trap, text));
    }
}

//! A program cut anywhere, with any byte replaced, and with more sections, and a type of many parameters.

use super::fault_of;
use crate::HELLO;
use crate::tests::assert_row;
use crate::tests::sections::PREAMBLE;
use std::alloc::Global;
use wasm_module::LoadFault;

/// The fault of the program with this part in place of its bytes from one place on, up to another.
fn fault_with(alloc: Global, start: usize, end: usize, part: &[u8]) -> Option<LoadFault> {
    let front = HELLO.get(..start).unwrap_or(&[]);
    fault_of(alloc, &[front, part, HELLO.get(end..).unwrap_or(&[])])
}

/// Whether this is the fault of the program's first bytes, this many.
fn is_fault_of(found: Option<LoadFault>, offset: u32) -> bool {
    match offset {
        8 | 26 | 98 | 149 => found.is_none(),
        102 | 107 | 128 => found == Some(LoadFault::CountMismatch { offset }),
        167 => found == Some(LoadFault::Truncated { offset }),
        _ => found.is_some() && found != Some(LoadFault::Memory),
    }
}

#[test]
fn program_cut(rt: HostRuntime) {
    for length in 0..168_u32 {
        let found = fault_with(rt.alloc(), length as usize, 168, b"");
        assert_row(&rt, length as usize, is_fault_of(found, length));
    }
}

#[test]
fn program_with_a_byte_replaced(rt: HostRuntime) {
    for place in 0..168 {
        let found = fault_with(rt.alloc(), place, place + 1, b"\xFF");
        assert_row(&rt, place, found != Some(LoadFault::Memory));
    }
}

#[test]
fn data_counts(rt: HostRuntime) {
    let alloc = rt.alloc();
    let mismatch = LoadFault::CountMismatch { offset: 171 };
    let order = LoadFault::SectionOrder { offset: 149 };
    assert!(rt; fault_with(alloc, 128, 128, &[12, 1, 1]) == None);
    assert!(rt; fault_with(alloc, 128, 128, &[12, 1, 2]) == Some(mismatch));
    assert!(rt; fault_with(alloc, 149, 149, &[12, 1, 1]) == Some(order));
}

/// The fault of one type of 50,001 parameters, with these bytes after it.
fn fault_after(alloc: Global, tail: &[u8]) -> Option<LoadFault> {
    let front = &[1, 0xD7, 0x86, 3, 1, 0x60, 0xD1, 0x86, 3];
    match vec![in alloc; 0x7Fu8; 50_001] {
        Ok(parameters) => fault_of(alloc, &[PREAMBLE, front, &parameters, tail]),
        Err(_) => Some(LoadFault::Memory),
    }
}

#[test]
fn many_parameters(rt: HostRuntime) {
    let limit = LoadFault::Limit { offset: 50_022 };
    let function = b"\x00\x03\x02\x01\x00\x0A\x04\x01\x02\x00\x0B";
    assert!(rt; fault_after(rt.alloc(), b"\x00") == None);
    assert!(rt; fault_after(rt.alloc(), function) == Some(limit));
}

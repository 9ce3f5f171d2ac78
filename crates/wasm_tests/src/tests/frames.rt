//! Which functions are at work where a run pauses, and which of their instructions they go on with.

ghost use Rattle.std.specs.Prelude.{Some};
ghost use Rattle.wasm_store.specs.declared.call.HostCall.TheVariants.{Nosys};

use super::{assert_row, loaded};
use sandbox_inspect::instruction_offset;
use std::alloc::Global;
use std::process::Abort;
use wasm_interp::{Answer, Errno, Host, HostCall, MOST_VALUES, Machine, Memory};
use wasm_module::FuncType;
use wasm_valid::Valid;

/// Answers each call with 0.
#[derive(Drop)]
struct Calm;

impl Host for Calm {
    ghost links = { λ _ _ _ _. Some Nosys };

    ghost calls = { λ _ _ _ _ _ _ _ _. Unit {0} };

    fn link(&self, _module_name: &str, _name: &str, _func_type: &FuncType) -> Option<HostCall> {
        Some(HostCall::Nosys)
    }

    fn call(
        &mut self,
        _memory: &mut Memory,
        _used: u64,
        _call: HostCall,
        _arguments: &[u64],
    ) -> Answer {
        Answer::Value(Errno::SUCCESS)
    }
}

/// As wabt's `wat2wasm --debug-names` writes it, a line for each section and each body. Function 0 is imported. Function 1, `divide`,
/// has five locals, and divides 100,000 by the one that it was given. Function 2 has two blocks, of which `br_table 0 1 0` leaves one
/// or both; where it left the inner one alone, `memory.copy` traps; else it calls by the table, from place 0 on, what `divide` is.
/// Function 3, `_start`, calls it with 1. `wasm-objdump -d` says where each instruction stands.
pub(super) const CALLERS: &[u8] = b"\0asm\x01\0\0\0\
    \x01\x0F\x03`\x01\x7F\x01\x7F`\x02\x7F~\x01\x7F`\0\0\
    \x02\x07\x01\x01w\x01b\0\x01\
    \x03\x04\x03\0\0\x02\
    \x04\x04\x01p\0\x02\
    \x05\x04\x01\x01\x01\x02\
    \x07\x0A\x01\x06_start\0\x03\
    \x09\x07\x01\0A\0\x0B\x01\x01\
    \x0A;\x03\
    \x0D\x02\x02~\x01\x7FA\xA0\x8D\x06\x20\0m\x0B\
    #\0\x02@\x02@\x20\0\x0E\x02\0\x01\0\x0BA\x03A\0A\x7F\xFC\x0A\0\0\x0B\x20\0A\x01kA\0\x11\0\0\x0B\
    \x07\0A\x01\x10\x02\x1A\x0B\
    \0&\x04name\x01\x0E\x02\0\x03ask\x01\x06divide\x02\x09\x04\0\0\x01\0\x02\0\x03\0\x04\x04\x01\0\x01t";

/// Where `_start` says what it calls function 2 with.
const ARGUMENT: usize = 0x81;

/// Where function 2 says how much it takes off what it was called with.
const TAKEN_OFF: usize = 0x76;

/// Where function 2 says which place of the table it calls.
const PLACE: usize = 0x79;

/// A function of the module's own, the instruction that it goes on with, and where that one stands in the bytes; of a caller where
/// its call stands.
type Told = (usize, usize, usize);

/// The bytes of `CALLERS` with this byte at this place, how many units it is run with, and the frames, the innermost first.
type Row<'a> = (usize, u8, u32, &'a [Told]);

fn is_told(
    machine: &Machine<'_>,
    bytes: &[u8],
    valid: &Valid<'_>,
    index: usize,
    want: Told,
) -> bool {
    let Some(frame) = machine.frame(index) else {
        return false;
    };
    let Some(body) = valid.module().bodies.as_slice().get(frame.own) else {
        return false;
    };
    let at = match index {
        0 => frame.next,
        _ => frame.next.saturating_sub(1),
    };
    let (own, next, offset) = want;
    frame.own == own
        && frame.next == next
        && instruction_offset(bytes, own, body, at) == Some(offset)
}

fn are_told(machine: &Machine<'_>, bytes: &[u8], valid: &Valid<'_>, wanted: &[Told]) -> bool {
    for (index, want) in wanted.iter().enumerate() {
        if !is_told(machine, bytes, valid, index, *want) {
            return false;
        }
    }
    machine.frame(wanted.len()).is_none()
}

/// How far a machine runs: with so many units, and with so many values at most.
#[derive(Clone, Copy)]
struct Reach {
    units: u32,
    values: usize,
}

/// Whether these are the frames of a machine over this module, which has these bytes, once it has run so far.
fn stops_so(
    alloc: Global,
    bytes: &[u8],
    valid: Valid<'_>,
    read: &Valid<'_>,
    reach: Reach,
    wanted: &[Told],
) -> bool {
    match Machine::new(alloc, valid, 4, &Calm) {
        Ok(mut machine) => {
            machine.limit_values(reach.values);
            if machine.used() == 0 {
                let _pause = machine.resume(&mut Calm, u64::from(reach.units));
            }
            let are = are_told(&machine, bytes, read, wanted);
            drop(machine);
            are
        }
        Err(refused) => {
            drop(refused);
            false
        }
    }
}

fn are_frames(alloc: Global, bytes: &[u8], reach: Reach, wanted: &[Told]) -> bool {
    match (loaded(alloc, bytes), loaded(alloc, bytes)) {
        (Ok(valid), Ok(read)) => stops_so(alloc, bytes, valid, &read, reach, wanted),
        _ => false,
    }
}

/// Whether these are the frames of a module of these parts, one after another.
fn are_frames_of(alloc: Global, parts: &[&[u8]], reach: Reach, wanted: &[Told]) -> bool {
    match parts.concat(alloc) {
        Ok(bytes) => are_frames(alloc, &bytes, reach, wanted),
        Err(_) => false,
    }
}

/// Whether these are the frames of `CALLERS` with this byte at this place.
fn is_row(alloc: Global, place: usize, byte: u8, units: u32, wanted: &[Told]) -> bool {
    let front = CALLERS.get(..place).unwrap_or(&[]);
    let from = CALLERS.get(place..).unwrap_or(&[]);
    let back = from.get(1..).unwrap_or(&[]);
    let reach = Reach {
        units,
        values: MOST_VALUES,
    };
    are_frames_of(alloc, &[front, &[byte], back], reach, wanted)
}

fn assert_rows(rt: &impl Abort, alloc: Global, rows: &[Row<'_>]) {
    for (i, (place, byte, units, wanted)) in rows.iter().enumerate() {
        assert_row(rt, i, is_row(alloc, *place, *byte, *units, wanted));
    }
}

#[test]
fn frames_at_each_unit(rt: HostRuntime) {
    assert_rows(
        &rt,
        rt.alloc(),
        &[
            (ARGUMENT, 1, 0, &[(2, 0, 0x80)]),
            (ARGUMENT, 1, 1, &[(2, 1, 0x82)]),
            (ARGUMENT, 1, 2, &[(1, 0, 0x5C), (2, 2, 0x82)]),
            (ARGUMENT, 1, 4, &[(1, 2, 0x60), (2, 2, 0x82)]),
            (ARGUMENT, 1, 5, &[(1, 3, 0x62), (2, 2, 0x82)]),
            // both blocks are left
            (ARGUMENT, 1, 6, &[(1, 10, 0x73), (2, 2, 0x82)]),
            (ARGUMENT, 1, 10, &[(1, 14, 0x7A), (2, 2, 0x82)]),
            (
                ARGUMENT,
                1,
                11,
                &[(0, 0, 0x52), (1, 15, 0x7A), (2, 2, 0x82)],
            ),
            (
                ARGUMENT,
                1,
                12,
                &[(0, 1, 0x56), (1, 15, 0x7A), (2, 2, 0x82)],
            ),
            (
                ARGUMENT,
                1,
                13,
                &[(0, 2, 0x58), (1, 15, 0x7A), (2, 2, 0x82)],
            ),
            // the inner block alone is left
            (ARGUMENT, 0, 6, &[(1, 5, 0x68), (2, 2, 0x82)]),
            (ARGUMENT, 0, 9, &[(1, 8, 0x6E), (2, 2, 0x82)]),
        ],
    );
}

#[test]
fn frames_of_traps(rt: HostRuntime) {
    assert_rows(
        &rt,
        rt.alloc(),
        &[
            // integer divide by zero
            (
                ARGUMENT,
                1,
                14,
                &[(0, 2, 0x58), (1, 15, 0x7A), (2, 2, 0x82)],
            ),
            (
                ARGUMENT,
                1,
                1_000,
                &[(0, 2, 0x58), (1, 15, 0x7A), (2, 2, 0x82)],
            ),
            // out of bounds memory access, of a copy
            (ARGUMENT, 0, 10, &[(1, 8, 0x6E), (2, 2, 0x82)]),
            (ARGUMENT, 0, 1_000, &[(1, 8, 0x6E), (2, 2, 0x82)]),
            // uninitialized and undefined elements of the table
            (PLACE, 1, 1_000, &[(1, 14, 0x7A), (2, 2, 0x82)]),
            (PLACE, 2, 1_000, &[(1, 14, 0x7A), (2, 2, 0x82)]),
        ],
    );
}

#[test]
fn no_frames_of_an_end(rt: HostRuntime) {
    assert_rows(
        &rt,
        rt.alloc(),
        &[
            // 100,000 by -1
            (TAKEN_OFF, 2, 1_000, &[]),
        ],
    );
}

/// As `CALLERS`: two functions without parameters and results. Function 0 has 5,000 locals, and function 1 calls it. Which of them
/// is `_start` stands between these bytes and the next.
const ENTERED: &[u8] = b"\0asm\x01\0\0\0\
    \x01\x04\x01`\0\0\
    \x03\x03\x02\0\0\
    \x07\x0A\x01\x06_start\0";

const BODIES: &[u8] = b"\x0A\x0C\x02\
    \x05\x01\x88\x27\x7F\x0B\
    \x04\0\x10\0\x0B";

#[test]
fn frames_out_of_memory(rt: HostRuntime) {
    let reach = Reach {
        units: 1_000,
        values: 0,
    };
    for (i, (start, wanted)) in [
        // the function that is entered from outside, where none is at work
        (0, [].as_slice()),
        // the one that `_start` calls, with no value on the stack
        (1, [(1, 0, 0x2A)].as_slice()),
    ]
    .iter()
    .enumerate()
    {
        let parts = [ENTERED, &[*start], BODIES];
        assert_row(&rt, i, are_frames_of(rt.alloc(), &parts, reach, wanted));
    }
}

//! Small guests, by the code of their `_start`, and how they end.

ghost use Rattle.std.specs.Prelude.{Some};
ghost use Rattle.wasm_store.specs.declared.call.HostCall.TheVariants.{ProcExit};

mod floats;

use super::{assert_row, loaded};
use std::alloc::{AllocError, Global};
use std::process::Abort;
use wasm_interp::Outcome::{Exited, OutOfMemory, Trapped};
use wasm_interp::{
    Answer, Errno, Host, HostCall, MOST_VALUES, Machine, Memory, Outcome, Pause, Trap,
};
use wasm_module::FuncType;
use wasm_valid::Valid;

/// Exits at a call of one argument, with that argument. A call of two is remembered, with the units used; it writes a
/// byte to memory, and answers 8.
#[derive(Drop)]
struct Recorder {
    seen: (u64, u64, u64),
}

impl Host for Recorder {
    ghost links = { λ _ _ _ _. Some ProcExit };

    ghost calls = { λ _ _ _ _ _ _ _ _. Unit {0} };

    fn link(&self, _module_name: &str, _name: &str, _func_type: &FuncType) -> Option<HostCall> {
        Some(HostCall::ProcExit)
    }

    fn call(
        &mut self,
        memory: &mut Memory,
        used: u64,
        _call: HostCall,
        arguments: &[u64],
    ) -> Answer {
        match arguments {
            [status] => Answer::Exit((*status & 0xffff_ffff) as u32),
            [first, second] => {
                self.seen = (*first, *second, used);
                memory.write(0, b"!");
                Answer::Value(Errno::BADF)
            }
            _ => Answer::Exit(0xdead),
        }
    }
}

/// Imports function 0, of type [i32] -> [], and function 1, of type [i32 i64] -> [i32]; has a memory of one page that
/// may have two, and exports function 2, of type [] -> []. After the preamble there is a line for each section: types,
/// imports, functions, memories, exports, and the id of code.
const FRONT: &[u8] = b"\0asm\x01\0\0\0\
    \x01\x0E\x03\x60\x01\x7F\x00\x60\x00\x00\x60\x02\x7F\x7E\x01\x7F\
    \x02\x0D\x02\x01w\x01a\x00\x00\x01w\x01b\x00\x02\
    \x03\x02\x01\x01\
    \x05\x04\x01\x01\x01\x02\
    \x07\x0A\x01\x06_start\x00\x02\
    \x0A";

/// The bytes of a module whose function has no locals and this code, under 100 bytes.
fn guest(alloc: Global, code: &[u8]) -> Result<Vec<u8>, AllocError> {
    let size = code.len().min(100) as u8 + 1;
    [FRONT, &[size + 2, 1, size, 0], code].concat(alloc)
}

fn resumed(machine: &mut Machine<'_>, host: &mut Recorder, units: u32) -> Option<Pause> {
    if machine.used() >= 1_000_000 {
        return None;
    }
    Some(machine.resume(host, u64::from(units)))
}

/// Resumes for this many units each, until the guest ends or that was done as often as asked.
fn paused(machine: &mut Machine<'_>, host: &mut Recorder, units: u32, times: u32) -> Option<Pause> {
    let mut last = None;
    for _ in 0..times {
        last = resumed(machine, host, units);
    }
    last
}

/// How a guest pauses in the end, the units that it has used, and what its host saw.
type Ending = (Pause, u64, (u64, u64, u64));

/// How often a guest is resumed, for how many units each time, and with how many values at most where that is said.
#[derive(Clone, Copy)]
struct Pace {
    units: u32,
    times: u32,
    most_values: Option<usize>,
}

fn ending_of(machine: &mut Machine<'_>, host: &mut Recorder, pace: Pace) -> Option<Ending> {
    if let Some(most) = pace.most_values {
        machine.limit_values(most);
    }
    match paused(machine, host, pace.units, pace.times) {
        Some(pause) => Some((pause, machine.used(), host.seen)),
        None => None,
    }
}

fn run_valid(alloc: Global, valid: Valid<'_>, pace: Pace) -> Option<Ending> {
    let mut host = Recorder { seen: (0, 0, 0) };
    match Machine::new(alloc, valid, 4, &host) {
        Ok(mut machine) => {
            let ending = ending_of(&mut machine, &mut host, pace);
            drop(machine);
            ending
        }
        Err(refused) => {
            drop(refused);
            None
        }
    }
}

/// The ending of a guest of these bytes.
fn run(alloc: Global, bytes: &[u8], pace: Pace) -> Option<Ending> {
    match loaded(alloc, bytes) {
        Ok(valid) => run_valid(alloc, valid, pace),
        Err(_) => None,
    }
}

/// The ending of a guest with this code.
fn ending(alloc: Global, code: &[u8], units: u32, times: u32) -> Option<Ending> {
    let pace = Pace {
        units,
        times,
        most_values: None,
    };
    match guest(alloc, code) {
        Ok(bytes) => run(alloc, &bytes, pace),
        Err(_) => None,
    }
}

/// Code, how it ends when it is resumed for 1,000 units at most, and the units that it uses.
type Row<'a> = (&'a [u8], Outcome, u64);

fn assert_rows(rt: &impl Abort, alloc: Global, rows: &[Row<'_>]) {
    for (i, (code, outcome, used)) in rows.iter().enumerate() {
        let want = Some((Pause::Ended(*outcome), *used, UNSEEN));
        assert_row(rt, i, ending(alloc, code, 1_000, 1) == want);
    }
}

const OUTSIDE: Outcome = Trapped(Trap::OutOfBoundsMemory);

const ZERO: Outcome = Trapped(Trap::DivideByZero);

#[test]
fn operators(rt: HostRuntime) {
    assert_rows(
        &rt,
        rt.alloc(),
        &[
            // 5 - 7, 1 << 33, -7 / 2 and -1 * 2
            (b"\x41\x05\x41\x07\x6B\x10\x00\x0B", Exited(0xffff_fffe), 4),
            (b"\x41\x01\x41\x21\x74\x10\x00\x0B", Exited(2), 4),
            (b"\x41\x79\x41\x02\x6D\x10\x00\x0B", Exited(0xffff_fffd), 4),
            (
                b"\x42\x7F\x42\x02\x7E\xA7\x10\x00\x0B",
                Exited(0xffff_fffe),
                5,
            ),
            // -1 < 1 as signed and as unsigned
            (b"\x41\x7F\x41\x01\x48\x10\x00\x0B", Exited(1), 4),
            (b"\x41\x7F\x41\x01\x49\x10\x00\x0B", Exited(0), 4),
            // clz 1, extend8_s 128, whether 0 is 0
            (b"\x41\x01\x67\x10\x00\x0B", Exited(31), 3),
            (b"\x41\x80\x01\xC0\x10\x00\x0B", Exited(0xffff_ff80), 3),
            (b"\x42\x00\x50\x10\x00\x0B", Exited(1), 3),
            // the high half of -1 as i64, from signed and from unsigned
            (
                b"\x41\x7F\xAC\x42\x20\x88\xA7\x10\x00\x0B",
                Exited(0xffff_ffff),
                6,
            ),
            (b"\x41\x7F\xAD\x42\x20\x88\xA7\x10\x00\x0B", Exited(0), 6),
            // select takes the first where the condition is set
            (b"\x41\x07\x41\x09\x41\x02\x1B\x10\x00\x0B", Exited(7), 5),
            (b"\x41\x07\x41\x09\x41\x00\x1B\x10\x00\x0B", Exited(9), 5),
        ],
    );
}

#[test]
fn loads_and_stores(rt: HostRuntime) {
    assert_rows(
        &rt,
        rt.alloc(),
        &[
            // -2 is stored at 65,532, and what stands at 65,535 and at 65,532 is loaded
            (
                b"\x41\xFC\xFF\x03\x41\x7E\x36\x02\x00\x41\xFF\xFF\x03\x2D\x00\x00\x10\x00\x0B",
                Exited(0xff),
                6,
            ),
            (
                b"\x41\xFC\xFF\x03\x41\x7E\x36\x02\x00\x41\xFC\xFF\x03\x2D\x00\x00\x10\x00\x0B",
                Exited(0xfe),
                6,
            ),
            // stored at 65,533, loaded from there, and from 2 ^ 32 - 1 and 4
            (b"\x41\xFD\xFF\x03\x41\x7E\x36\x02\x00\x0B", OUTSIDE, 3),
            (b"\x41\xFD\xFF\x03\x28\x02\x00\x1A\x0B", OUTSIDE, 2),
            (b"\x41\x7F\x28\x02\x04\x1A\x0B", OUTSIDE, 2),
            // two bytes of -2, as four
            (
                b"\x41\x00\x41\x7E\x3B\x01\x00\x41\x00\x28\x02\x00\x10\x00\x0B",
                Exited(0xfffe),
                6,
            ),
            // the high half of four bytes of -2 read as i64, with their sign and without
            (
                b"\x41\x00\x41\x7E\x36\x02\x00\x41\x00\x34\x02\x00\x42\x20\x88\xA7\x10\x00\x0B",
                Exited(0xffff_ffff),
                9,
            ),
            (
                b"\x41\x00\x41\x7E\x36\x02\x00\x41\x00\x35\x02\x00\x42\x20\x88\xA7\x10\x00\x0B",
                Exited(0),
                9,
            ),
            // one byte of -2 with its sign
            (
                b"\x41\x00\x42\x7E\x3C\x00\x00\x41\x00\x2C\x00\x00\x10\x00\x0B",
                Exited(0xffff_fffe),
                6,
            ),
        ],
    );
}

#[test]
fn whole_memory(rt: HostRuntime) {
    assert_rows(
        &rt,
        rt.alloc(),
        &[
            // grown by one page, and by two
            (b"\x41\x01\x40\x00\x10\x00\x0B", Exited(1), 3),
            (b"\x41\x02\x40\x00\x10\x00\x0B", Exited(0xffff_ffff), 3),
            // 7 is stored in the second page
            (
                b"\x41\x01\x40\x00\x1A\x41\x80\x80\x04\x41\x07\x36\x02\x00\x41\x80\x80\x04\x28\x02\x00\x10\x00\x0B",
                Exited(7),
                9,
            ),
            // 511 fills four bytes
            (
                b"\x41\x00\x41\xFF\x03\x41\x04\xFC\x0B\x00\x41\x00\x28\x02\x00\x10\x00\x0B",
                Exited(0xffff_ffff),
                7,
            ),
            // the bytes 1, 2 and 3 go one place up
            (
                b"\x41\x00\x41\x81\x84\x8C\x20\x36\x02\x00\x41\x01\x41\x00\x41\x03\xFC\x0A\x00\x00\x41\x00\x28\x02\x00\x10\x00\x0B",
                Exited(0x0302_0101),
                10,
            ),
            // the bytes 2, 3 and 4 go one place down
            (
                b"\x41\x00\x41\x81\x84\x8C\x20\x36\x02\x00\x41\x00\x41\x01\x41\x03\xFC\x0A\x00\x00\x41\x00\x28\x02\x00\x10\x00\x0B",
                Exited(0x0404_0302),
                10,
            ),
            // nothing right at the end, and one place further on
            (
                b"\x41\x80\x80\x04\x41\x80\x80\x04\x41\x00\xFC\x0A\x00\x00\x41\x07\x10\x00\x0B",
                Exited(7),
                6,
            ),
            (
                b"\x41\x81\x80\x04\x41\x00\x41\x00\xFC\x0A\x00\x00\x0B",
                OUTSIDE,
                4,
            ),
            (
                b"\x41\x81\x80\x04\x41\x00\x41\x00\xFC\x0B\x00\x0B",
                OUTSIDE,
                4,
            ),
            // past the end
            (
                b"\x41\x80\x80\x04\x41\x00\x41\x01\xFC\x0A\x00\x00\x0B",
                OUTSIDE,
                4,
            ),
            (
                b"\x41\x00\x41\xFF\xFF\x03\x41\x02\xFC\x0A\x00\x00\x0B",
                OUTSIDE,
                4,
            ),
            (b"\x41\x00\x41\x00\x41\x7F\xFC\x0A\x00\x00\x0B", OUTSIDE, 4),
            (
                b"\x41\xFF\xFF\x03\x41\x00\x41\x02\xFC\x0B\x00\x0B",
                OUTSIDE,
                4,
            ),
            (
                b"\x41\x80\x80\x04\x41\x00\x41\x01\xFC\x0B\x00\x0B",
                OUTSIDE,
                4,
            ),
        ],
    );
}

#[test]
fn traps_take_a_unit(rt: HostRuntime) {
    assert_rows(
        &rt,
        rt.alloc(),
        &[
            (b"\x41\x01\x41\x00\x6D\x1A\x0B", ZERO, 3),
            (b"\x41\x01\x41\x00\x70\x1A\x0B", ZERO, 3),
            // the least number by -1
            (
                b"\x41\x80\x80\x80\x80\x78\x41\x7F\x6D\x1A\x0B",
                Trapped(Trap::IntegerOverflow),
                3,
            ),
            (b"\x01\x00\x0B", Trapped(Trap::Unreachable), 2),
        ],
    );
}

/// The units of each resume, how often a guest is resumed, and how that ends.
type Resumes = (u32, u32, Ending);

const UNSEEN: (u64, u64, u64) = (0, 0, 0);

const SEEN: (u64, u64, u64) = (2, 3, 4);

const CALLED: Pause = Pause::Called(HostCall::ProcExit, Errno::BADF);

fn assert_resumes(rt: &impl Abort, alloc: Global, code: &[u8], rows: &[Resumes]) {
    for (i, (units, times, want)) in rows.iter().enumerate() {
        assert_row(rt, i, ending(alloc, code, *units, *times) == Some(*want));
    }
}

#[test]
fn units_one_by_one(rt: HostRuntime) {
    assert_resumes(
        &rt,
        rt.alloc(),
        b"\x41\x05\x41\x07\x6B\x01\x10\x00\x0B",
        &[
            (1, 4, (Pause::Spent, 4, UNSEEN)),
            (1, 5, (Pause::Ended(Exited(0xffff_fffe)), 5, UNSEEN)),
            (1, 9, (Pause::Ended(Exited(0xffff_fffe)), 5, UNSEEN)),
        ],
    );
    // 7 fills four bytes, two of them go up by two, and the lowest is read
    assert_resumes(
        &rt,
        rt.alloc(),
        b"\x41\x00\x41\x07\x41\x04\xFC\x0B\x00\x41\x02\x41\x00\x41\x02\xFC\x0A\x00\x00\x41\x00\x2D\x00\x00\x10\x00\x0B",
        &[
            (1, 3, (Pause::Spent, 3, UNSEEN)),
            (1, 4, (Pause::Spent, 4, UNSEEN)),
            (7, 1, (Pause::Spent, 7, UNSEEN)),
            (8, 1, (Pause::Spent, 8, UNSEEN)),
            (5, 2, (Pause::Spent, 10, UNSEEN)),
            (1, 11, (Pause::Ended(Exited(7)), 11, UNSEEN)),
            (1_000, 1, (Pause::Ended(Exited(7)), 11, UNSEEN)),
        ],
    );
    assert_resumes(
        &rt,
        rt.alloc(),
        b"\x01\x00\x0B",
        &[
            (0, 3, (Pause::Spent, 0, UNSEEN)),
            (1, 1, (Pause::Spent, 1, UNSEEN)),
            (1, 2, (Pause::Ended(Trapped(Trap::Unreachable)), 2, UNSEEN)),
        ],
    );
}

#[test]
fn hosts_see_their_arguments(rt: HostRuntime) {
    // i32.const 1, i32.const 2, i64.const 3, call 1, i32.add, i32.const 0, i32.load8_u, i32.add, call 0, end: 1, 8 and
    // the byte that the host wrote
    assert_resumes(
        &rt,
        rt.alloc(),
        b"\x41\x01\x41\x02\x42\x03\x10\x01\x6A\x41\x00\x2D\x00\x00\x6A\x10\x00\x0B",
        &[
            (1_000, 1, (CALLED, 4, SEEN)),
            (1_000, 2, (Pause::Ended(Exited(42)), 9, SEEN)),
            (1_000, 3, (Pause::Ended(Exited(42)), 9, SEEN)),
        ],
    );
}

/// A guest that leaves 4,200 numbers on the stack, whose code these bytes are, before they are dropped.
fn high_guest(alloc: Global, numbers: &[u8], drops: &[u8]) -> Result<Vec<u8>, AllocError> {
    let front = b"\xC1\x62\x01\xBE\x62\x00";
    [FRONT, front, numbers, drops, b"\x41\x00\x10\x00\x0B"].concat(alloc)
}

fn high_ending(alloc: Global) -> Option<Ending> {
    let pace = Pace {
        units: 10_000,
        times: 1,
        most_values: None,
    };
    let numbers = b"\x41\x01".repeat(alloc, 4_200).ok()?;
    let drops = b"\x1A".repeat(alloc, 4_200).ok()?;
    match high_guest(alloc, &numbers, &drops) {
        Ok(bytes) => run(alloc, &bytes, pace),
        Err(_) => None,
    }
}

#[test]
fn the_stack_grows(rt: HostRuntime) {
    let want = Some((Pause::Ended(Exited(0)), 8_402, UNSEEN));
    assert!(rt; high_ending(rt.alloc()) == want);
}

/// The code of a guest whose function has 1,000 locals, needs three operands, counts in memory and calls itself until it
/// has begun ten times. Each time it takes 11 units, and its call one more.
const DEEP: &[u8] =
    b"\x21\x01\x1F\x01\xE8\x07\x7F\x41\x00\x41\x00\x28\x02\x00\x41\x01\x6A\x36\x02\x00\x41\x00\x28\x02\x00\x41\x0A\x49\x04\x40\x10\x02\x0B\x0B";

/// How that guest ends with this many values at most.
fn deep_ending(alloc: Global, most: usize) -> Option<Ending> {
    let pace = Pace {
        units: 1_000,
        times: 1,
        most_values: Some(most),
    };
    match [FRONT, DEEP].concat(alloc) {
        Ok(bytes) => run(alloc, &bytes, pace),
        Err(_) => None,
    }
}

#[test]
fn values_are_limited(rt: HostRuntime) {
    for (i, (most, outcome, used)) in [
        // the fifth call finds no room
        (0, OutOfMemory, 48),
        (4_999, OutOfMemory, 48),
        // the first, the second and the third operand after it, and the sixth call
        (5_000, OutOfMemory, 48),
        (5_001, OutOfMemory, 49),
        (5_002, OutOfMemory, 51),
        (5_003, OutOfMemory, 60),
        // the third operand after the tenth call
        (10_002, OutOfMemory, 111),
        (10_003, Exited(0), 119),
        (MOST_VALUES, Exited(0), 119),
        (usize::MAX, Exited(0), 119),
    ]
    .iter()
    .enumerate()
    {
        let want = Some((Pause::Ended(*outcome), *used, UNSEEN));
        assert_row(&rt, i, deep_ending(rt.alloc(), *most) == want);
    }
}

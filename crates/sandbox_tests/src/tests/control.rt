//! Guests by their bytes: control, calls, traps and memory, with the units that they take.

use super::sessions::ends;
use sandbox_core::{Outcome, Trap};
use std::alloc::{AllocError, Global};
use std::process::Abort;
use std::test::Fail;

/// The first bytes of each module.
const PREAMBLE: &[u8] = b"\x00asm\x01\x00\x00\x00";

/// A function 0, of type [] -> [].
const PLAIN: &[u8] = b"\x00asm\x01\x00\x00\x00\x01\x04\x01`\x00\x00\x03\x02\x01\x00";

/// `proc_exit` as function 0, of type [i32] -> [], and a function 1, of type [] -> [].
const EXITING: &[u8] =
    b"\x00asm\x01\x00\x00\x00\x01\x08\x02`\x01\x7f\x00`\x00\x00\x02$\x01\x16wasi_snapshot_preview1\x09proc_exit\x00\x00\x03\x02\x01\x01";

/// `proc_exit` as function 0, of type [i32] -> [], and the functions 1, of type [] -> [i32], and 2, of type [] -> [].
const CALLING: &[u8] =
    b"\x00asm\x01\x00\x00\x00\x01\x0c\x03`\x01\x7f\x00`\x00\x01\x7f`\x00\x00\x02$\x01\x16wasi_snapshot_preview1\x09proc_exit\x00\x00\x03\x03\x02\x01\x02";

/// The functions 0, of type [] -> [i32], and 1, of type [] -> [], and a table of two elements.
const TABLE: &[u8] =
    b"\x00asm\x01\x00\x00\x00\x01\x08\x02`\x00\x00`\x00\x01\x7f\x03\x03\x02\x01\x00\x04\x04\x01p\x00\x02";

/// Function 0 is `_start`.
const START_0: &[u8] = b"\x07\x0a\x01\x06_start\x00\x00";

/// Function 1 is `_start`.
const START_1: &[u8] = b"\x07\x0a\x01\x06_start\x00\x01";

/// Function 2 is `_start`.
const START_2: &[u8] = b"\x07\x0a\x01\x06_start\x00\x02";

/// Element 0 is function 0.
const ELEMENT: &[u8] = b"\x09\x07\x01\x00A\x00\x0b\x01\x00";

/// A page of memory.
const PAGE: &[u8] = b"\x05\x03\x01\x00\x01";

/// `proc_exit` as function 0, of the type 0.
const IMPORT: &[u8] = b"\x02$\x01\x16wasi_snapshot_preview1\x09proc_exit\x00\x00";

/// Parts of a guest's bytes, the fuel, how its run ends, and the units that it has used then.
type Guest<'a> = (&'a [&'a [u8]], u64, Outcome, u64);

/// Whether a guest ends so, and prints nothing.
fn is_as_wanted(rt: &impl Abort, alloc: Global, guest: &Guest<'_>) -> bool {
    match guest.0.concat(alloc) {
        Ok(module) => ends(rt, alloc, &(&module, guest.1, guest.2, guest.3), b""),
        Err(_) => false,
    }
}

fn assert_rows(rt: &impl Abort, alloc: Global, guests: &[Guest<'_>]) {
    for (i, guest) in guests.iter().enumerate() {
        assert!(rt; is_as_wanted(rt, alloc, guest), "row {i}");
    }
}

#[test]
fn branches(rt: HostRuntime) {
    assert_rows(
        &rt,
        rt.alloc(),
        &[
            // a loop that branches to itself never ends: loop, br, loop, br, loop
            (
                &[PLAIN, START_0, b"\x0a\x09\x01\x07\x00\x03@\x0c\x00\x0b\x0b"],
                5,
                Outcome::OutOfFuel,
                5,
            ),
            // and stops at its fuel
            (
                &[PLAIN, START_0, b"\x0a\x09\x01\x07\x00\x03@\x0c\x00\x0b\x0b"],
                100_000,
                Outcome::OutOfFuel,
                100_000,
            ),
            // a branch out of a block keeps its value
            (
                &[
                    PLAIN,
                    START_0,
                    b"\x0a\x0c\x01\x0a\x00\x02\x7fA\x07\x0c\x00\x0b\x1a\x0b",
                ],
                4,
                Outcome::Exited(0),
                4,
            ),
            // with a unit less
            (
                &[
                    PLAIN,
                    START_0,
                    b"\x0a\x0c\x01\x0a\x00\x02\x7fA\x07\x0c\x00\x0b\x1a\x0b",
                ],
                3,
                Outcome::OutOfFuel,
                3,
            ),
            // if takes its first part
            (
                &[
                    EXITING,
                    START_1,
                    b"\x0a\x10\x01\x0e\x00A\x01\x04\x7fA\x07\x05A\x08\x0b\x10\x00\x0b",
                ],
                9,
                Outcome::Exited(7),
                4,
            ),
            // or the part after else
            (
                &[
                    EXITING,
                    START_1,
                    b"\x0a\x10\x01\x0e\x00A\x00\x04\x7fA\x07\x05A\x08\x0b\x10\x00\x0b",
                ],
                9,
                Outcome::Exited(8),
                4,
            ),
            // an if without else passes
            (
                &[
                    EXITING,
                    START_1,
                    b"\x0a\x11\x01\x0f\x00A\x00\x04@A\x07\x10\x00\x0bA\x09\x10\x00\x0b",
                ],
                9,
                Outcome::Exited(9),
                4,
            ),
            // br_table with index 0
            (
                &[
                    EXITING,
                    START_1,
                    b"\x0a \x01\x1e\x00\x02@\x02@\x02@A\x00\x0e\x02\x00\x01\x02\x0bA\x0a\x10\x00\x0bA\x0b\x10\x00\x0bA\x0c\x10\x00\x0b",
                ],
                20,
                Outcome::Exited(10),
                7,
            ),
            // br_table with index 1
            (
                &[
                    EXITING,
                    START_1,
                    b"\x0a \x01\x1e\x00\x02@\x02@\x02@A\x01\x0e\x02\x00\x01\x02\x0bA\x0a\x10\x00\x0bA\x0b\x10\x00\x0bA\x0c\x10\x00\x0b",
                ],
                20,
                Outcome::Exited(11),
                7,
            ),
            // br_table with index 2
            (
                &[
                    EXITING,
                    START_1,
                    b"\x0a \x01\x1e\x00\x02@\x02@\x02@A\x02\x0e\x02\x00\x01\x02\x0bA\x0a\x10\x00\x0bA\x0b\x10\x00\x0bA\x0c\x10\x00\x0b",
                ],
                20,
                Outcome::Exited(12),
                7,
            ),
            // br_table with index 7
            (
                &[
                    EXITING,
                    START_1,
                    b"\x0a \x01\x1e\x00\x02@\x02@\x02@A\x07\x0e\x02\x00\x01\x02\x0bA\x0a\x10\x00\x0bA\x0b\x10\x00\x0bA\x0c\x10\x00\x0b",
                ],
                20,
                Outcome::Exited(12),
                7,
            ),
            // br_if that branches keeps the value, one unit
            (
                &[
                    EXITING,
                    START_1,
                    b"\x0a\x12\x01\x10\x00\x02\x7fA\x06A\x01\x0d\x00\x1aA\x05\x0b\x10\x00\x0b",
                ],
                20,
                Outcome::Exited(6),
                5,
            ),
            // br_if that goes on
            (
                &[
                    EXITING,
                    START_1,
                    b"\x0a\x12\x01\x10\x00\x02\x7fA\x06A\x00\x0d\x00\x1aA\x05\x0b\x10\x00\x0b",
                ],
                20,
                Outcome::Exited(5),
                7,
            ),
            // arguments stand in their order
            (
                &[
                    PREAMBLE,
                    b"\x01\x0e\x03`\x01\x7f\x00`\x02\x7f\x7f\x01\x7f`\x00\x00",
                    IMPORT,
                    b"\x03\x03\x02\x01\x02",
                    START_2,
                    b"\x0a\x14\x02\x07\x00 \x00 \x01k\x0b\x0a\x00A\x09A\x02\x10\x01\x10\x00\x0b",
                ],
                20,
                Outcome::Exited(7),
                7,
            ),
            // other locals begin as zero at each call
            (
                &[
                    CALLING,
                    START_2,
                    b"\x0a\x16\x02\x0a\x01\x01\x7f \x00A\x05!\x00\x0b\x09\x00\x10\x01\x1a\x10\x01\x10\x00\x0b",
                ],
                20,
                Outcome::Exited(0),
                10,
            ),
            // local.tee keeps the value
            (
                &[
                    EXITING,
                    START_1,
                    b"\x0a\x0f\x01\x0d\x01\x01\x7fA\x04\"\x00 \x00j\x10\x00\x0b",
                ],
                20,
                Outcome::Exited(8),
                5,
            ),
            // return leaves all blocks with its value
            (
                &[
                    CALLING,
                    START_2,
                    b"\x0a\x19\x02\x10\x00A\x01\x02@\x03@A\x07\x0f\x0b\x0b\x1aA\x03\x0b\x06\x00\x10\x01\x10\x00\x0b",
                ],
                20,
                Outcome::Exited(7),
                7,
            ),
            // a branch to the function's label returns
            (
                &[
                    CALLING,
                    START_2,
                    b"\x0a\x11\x02\x08\x00A\x01A\x08\x0c\x00\x0b\x06\x00\x10\x01\x10\x00\x0b",
                ],
                20,
                Outcome::Exited(8),
                5,
            ),
        ],
    );
}

#[test]
fn functions(rt: HostRuntime) {
    assert_rows(
        &rt,
        rt.alloc(),
        &[
            // the start function runs first
            (
                &[
                    PREAMBLE,
                    b"\x01\x08\x02`\x01\x7f\x00`\x00\x00",
                    IMPORT,
                    b"\x03\x03\x02\x01\x01",
                    b"\x06\x06\x01\x7f\x01A\x01\x0b",
                    START_2,
                    b"\x08\x01\x01",
                    b"\x0a\x12\x02\x06\x00A)$\x00\x0b\x09\x00#\x00A\x01j\x10\x00\x0b",
                ],
                20,
                Outcome::Exited(42),
                6,
            ),
            // globals of 64 bits
            (
                &[
                    EXITING,
                    b"\x06\x06\x01~\x01B\x7f\x0b",
                    START_1,
                    b"\x0a\x10\x01\x0e\x00#\x00B\x05|$\x00#\x00\xa7\x10\x00\x0b",
                ],
                20,
                Outcome::Exited(4),
                7,
            ),
            // an element past the table
            (
                &[
                    TABLE,
                    START_1,
                    ELEMENT,
                    b"\x0a\x0f\x02\x04\x00A\x07\x0b\x08\x00A\x02\x11\x01\x00\x1a\x0b",
                ],
                20,
                Outcome::Trapped(Trap::UndefinedElement),
                2,
            ),
            // an element that was never set
            (
                &[
                    TABLE,
                    START_1,
                    ELEMENT,
                    b"\x0a\x0f\x02\x04\x00A\x07\x0b\x08\x00A\x01\x11\x01\x00\x1a\x0b",
                ],
                20,
                Outcome::Trapped(Trap::UninitializedElement),
                2,
            ),
            // an element of another type
            (
                &[
                    TABLE,
                    START_1,
                    ELEMENT,
                    b"\x0a\x0e\x02\x04\x00A\x07\x0b\x07\x00A\x00\x11\x00\x00\x0b",
                ],
                20,
                Outcome::Trapped(Trap::IndirectCallMismatch),
                2,
            ),
            // an element past the table, asked for another type
            (
                &[
                    TABLE,
                    START_1,
                    ELEMENT,
                    b"\x0a\x0e\x02\x04\x00A\x07\x0b\x07\x00A\x02\x11\x00\x00\x0b",
                ],
                20,
                Outcome::Trapped(Trap::UndefinedElement),
                2,
            ),
            // types are compared by their parts
            (
                &[
                    PREAMBLE,
                    b"\x01\x10\x04`\x00\x01\x7f`\x00\x01\x7f`\x01\x7f\x00`\x00\x00",
                    b"\x02$\x01\x16wasi_snapshot_preview1\x09proc_exit\x00\x02",
                    b"\x03\x03\x02\x00\x03",
                    b"\x04\x04\x01p\x00\x01",
                    START_2,
                    b"\x09\x07\x01\x00A\x00\x0b\x01\x01",
                    b"\x0a\x10\x02\x04\x00A\x07\x0b\x09\x00A\x00\x11\x01\x00\x10\x00\x0b",
                ],
                20,
                Outcome::Exited(7),
                4,
            ),
            // a call of itself: with one unit less than the frames
            (
                &[PLAIN, START_0, b"\x0a\x06\x01\x04\x00\x10\x00\x0b"],
                65_535,
                Outcome::OutOfFuel,
                65_535,
            ),
            // one frame too many
            (
                &[PLAIN, START_0, b"\x0a\x06\x01\x04\x00\x10\x00\x0b"],
                65_536,
                Outcome::Trapped(Trap::CallStackExhausted),
                65_536,
            ),
            // recursion over more values and frames than are reserved
            (
                &[
                    PREAMBLE,
                    b"\x01\x0d\x03`\x01\x7f\x00`\x01\x7f\x01\x7f`\x00\x00",
                    IMPORT,
                    b"\x03\x03\x02\x01\x02",
                    START_2,
                    b"\x0a\"\x02\x15\x00 \x00E\x04\x7fA\x00\x05 \x00A\x01k\x10\x01A\x01j\x0b\x0b\x0a\x00A\xa0\x9c\x01\x10\x01\x10\x00\x0b",
                ],
                300_000,
                Outcome::Exited(20000),
                180_007,
            ),
            // code that isn't reached takes any types
            (
                &[PLAIN, START_0, b"\x0a\x07\x01\x05\x00\x00j\x1a\x0b"],
                20,
                Outcome::Trapped(Trap::Unreachable),
                1,
            ),
        ],
    );
}

#[test]
fn traps_and_memory(rt: HostRuntime) {
    assert_rows(
        &rt,
        rt.alloc(),
        &[
            // a branch before code that isn't reached
            (
                &[PLAIN, START_0, b"\x0a\x08\x01\x06\x00\x0c\x00j\x1a\x0b"],
                20,
                Outcome::Exited(0),
                1,
            ),
            // a trap in a called function
            (
                &[
                    PREAMBLE,
                    b"\x01\x08\x02`\x00\x01\x7f`\x00\x00",
                    b"\x03\x03\x02\x00\x01",
                    START_1,
                    b"\x0a\x0f\x02\x07\x00A\x01A\x00n\x0b\x05\x00\x10\x00\x1a\x0b",
                ],
                20,
                Outcome::Trapped(Trap::DivideByZero),
                4,
            ),
            // memory grows by what was asked for, and tells its old size
            (
                &[
                    EXITING,
                    b"\x05\x04\x01\x01\x01\x03",
                    START_1,
                    b"\x0a\x10\x01\x0e\x00A\x02@\x00A\x10l?\x00j\x10\x00\x0b",
                ],
                20,
                Outcome::Exited(19),
                7,
            ),
            // past its maximum it stays
            (
                &[
                    EXITING,
                    b"\x05\x04\x01\x01\x01\x03",
                    START_1,
                    b"\x0a\x0d\x01\x0b\x00A\x03@\x00?\x00j\x10\x00\x0b",
                ],
                20,
                Outcome::Exited(0),
                5,
            ),
            // growing by nothing tells the size
            (
                &[
                    EXITING,
                    b"\x05\x03\x01\x00\x02",
                    START_1,
                    b"\x0a\x0a\x01\x08\x00A\x00@\x00\x10\x00\x0b",
                ],
                20,
                Outcome::Exited(2),
                3,
            ),
            // a copy to the next place, then a read
            (
                &[
                    EXITING,
                    PAGE,
                    START_1,
                    b"\x0a\x15\x01\x13\x00A\x01A\x00A\x03\xfc\x0a\x00\x00A\x00(\x02\x00\x10\x00\x0b",
                    b"\x0b\x0a\x01\x00A\x00\x0b\x04\x01\x02\x03\x04",
                ],
                20,
                Outcome::Exited(50462977),
                7,
            ),
            // a fill over the end of memory
            (
                &[
                    PLAIN,
                    PAGE,
                    START_0,
                    b"\x0a\x10\x01\x0e\x00A\xfe\xff\x03A\xff\x03A\x03\xfc\x0b\x00\x0b",
                ],
                20,
                Outcome::Trapped(Trap::OutOfBoundsMemory),
                4,
            ),
            // a fill of nothing right at the end
            (
                &[
                    PLAIN,
                    PAGE,
                    START_0,
                    b"\x0a\x0f\x01\x0d\x00A\x80\x80\x04A\x01A\x00\xfc\x0b\x00\x0b",
                ],
                20,
                Outcome::Exited(0),
                4,
            ),
            // a load over the end of memory
            (
                &[
                    PLAIN,
                    PAGE,
                    START_0,
                    b"\x0a\x0c\x01\x0a\x00A\xfd\xff\x03(\x02\x00\x1a\x0b",
                ],
                20,
                Outcome::Trapped(Trap::OutOfBoundsMemory),
                2,
            ),
            // a base and an offset don't wrap
            (
                &[
                    PLAIN,
                    PAGE,
                    START_0,
                    b"\x0a\x0a\x01\x08\x00A\x7f(\x02\x01\x1a\x0b",
                ],
                20,
                Outcome::Trapped(Trap::OutOfBoundsMemory),
                2,
            ),
        ],
    );
}

/// The front of a module whose `_start` has 12,605 bytes of code.
const FRONT: &[u8] =
    b"\x00asm\x01\x00\x00\x00\x01\x08\x02`\x01\x7f\x00`\x00\x00\x02$\x01\x16wasi_snapshot_preview1\
    \x09proc_exit\x00\x00\x03\x02\x01\x01\x07\x0a\x01\x06_start\x00\x01\x0a\xc1b\x01\xbeb\x00";

/// A module whose `_start` puts 4,200 constants onto the stack, drops them, and exits with status 3.
fn many_constants(alloc: Global) -> Result<Vec<u8>, AllocError> {
    let mut bytes = Vec::from_slice(alloc, FRONT)?;
    for _ in 0..4_200 {
        bytes.extend_from_slice(b"\x41\x07")?;
    }
    for _ in 0..4_200 {
        bytes.push(0x1a)?;
    }
    bytes.extend_from_slice(b"\x41\x03\x10\x00\x0b")?;
    Ok(bytes)
}

#[test]
fn more_values_than_are_reserved(rt: HostRuntime) -> Result<(), Fail> {
    let module = many_constants(rt.alloc())?;
    assert_rows(
        &rt,
        rt.alloc(),
        &[(&[&module], 10_000, Outcome::Exited(3), 8_402)],
    );
    Ok(())
}

//! What a host in C calls: why a module is refused, a session behind its handle, its limits, its record, misuse, and texts.

use super::guests::{DEEP, FILES, WIDE};
use super::sessions::assert_none;
use sandbox_core::Preopen;
use sandbox_host::{
    Handle, MISUSE, OK, SessionLimits, Supplies, Told, VolumeOperation, VolumeSource, Why, check,
    close, finish, format, format_huge, full, load_module_with, open, operation_at, output, resume,
    text, unload, volume_out,
};
use std::alloc::Global;
use std::process::Abort;
use wasm_tests::HELLO;

/// `HELLO`, which a session keeps.
static HI: [u8; 168] = HELLO;

/// The limits that are taken where none is named.
static DEFAULTS: SessionLimits = SessionLimits {
    pages: 0,
    values: 0,
    output: 0,
    later: [0; 6],
};

/// What a guest is given: the root as `/`, and nothing else.
static SUPPLIES: Supplies<'static> = Supplies {
    args: &[],
    env: &[],
    preopens: &[Preopen {
        guest_name: b"/",
        path: b"/",
    }],
    moment: 0,
    random: b"",
    limits: SessionLimits {
        pages: 0,
        values: 0,
        output: 0,
        later: [0; 6],
    },
    input: b"",
};

/// An empty volume.
static FRESH: VolumeSource<'static> = VolumeSource {
    kind: 0,
    sectors: &[],
};

/// Modules, the number that each is refused with, and at which byte.
static REFUSED: [(&[u8], u32, u32); 12] = [
    (b"\x01", 1, 1),
    (b"\0asn\x01\0\0\0", 2, 0),
    (b"\0asm\x02\0\0\0", 3, 4),
    // a size of five bytes whose last has an unused bit
    (b"\0asm\x01\0\0\0\x01\x80\x80\x80\x80\x10", 4, 9),
    // types twice
    (b"\0asm\x01\0\0\0\x01\x01\0\x01\x01\0", 5, 11),
    // a section that is too long by a byte
    (b"\0asm\x01\0\0\0\x05\x04\x01\0\x01\0", 6, 8),
    // section 13
    (b"\0asm\x01\0\0\0\x01\x01\0\x0D\x01\0", 7, 11),
    (b"\0asm\x01\0\0\0\0\x02\x01\xFF", 8, 11),
    // a function without a body
    (b"\0asm\x01\0\0\0\x01\x04\x01\x60\0\0\x03\x02\x01\0", 9, 18),
    // a parameter f32
    (b"\0asm\x01\0\0\0\x01\x05\x01\x60\x01\x7D\0", 10, 13),
    // a table of 1,000,001 elements
    (b"\0asm\x01\0\0\0\x04\x06\x01\x70\0\xC1\x84\x3D", 11, 13),
    // a memory of 65,537 pages
    (b"\0asm\x01\0\0\0\x05\x05\x01\0\x81\x80\x04", 12, 10),
];

/// Whether a module is answered with this number, and told with it and this offset.
fn is_refused(alloc: Global, module: &[u8], fault: u32, offset: u32) -> bool {
    let mut why = Why {
        fault: 0,
        offset: 0,
    };
    check(alloc, module, &mut why) == fault && why == Why { fault, offset }
}

/// The first row of a module that isn't refused as it says.
fn wrong_refusal(alloc: Global) -> Option<usize> {
    for (i, (module, fault, offset)) in REFUSED.iter().enumerate() {
        if !is_refused(alloc, module, *fault, *offset) {
            return Some(i);
        }
    }
    None
}

#[test]
fn tells_why_a_module_is_refused(rt: HostRuntime) {
    assert_none(&rt, wrong_refusal(rt.alloc()));
    assert!(rt; is_refused(rt.alloc(), &HI, 0, 0));
}

/// A module with a parameter f32.
const FLOATS: &[u8] = b"\0asm\x01\0\0\0\x01\x05\x01\x60\x01\x7D\0";

/// What is answered where this module is loaded, which may have floats where the number isn't 0, and where it is unloaded.
fn loaded_so(alloc: Global, floats: u32) -> (u32, u32) {
    let mut module = Handle::empty(alloc);
    let mut why = Why {
        fault: 0,
        offset: 0,
    };
    let answer = load_module_with(alloc, &mut module, FLOATS, floats, &mut why);
    (answer, unload(alloc, &mut module))
}

#[test]
fn loads_floats_where_they_are_asked_for(rt: HostRuntime) {
    assert!(rt; loaded_so(rt.alloc(), 0) == (10, MISUSE));
    assert!(rt; loaded_so(rt.alloc(), 1) == (OK, OK));
}

/// A session of a module over a volume, and what the call answered.
fn opened(alloc: Global, module: &'static [u8], volume: &VolumeSource<'_>) -> (Handle, u32) {
    opened_within(alloc, module, DEFAULTS, volume)
}

/// The same with limits.
fn opened_within(
    alloc: Global,
    module: &'static [u8],
    limits: SessionLimits,
    volume: &VolumeSource<'_>,
) -> (Handle, u32) {
    let mut session = Handle::empty(alloc);
    let mut why = Why {
        fault: 0,
        offset: 0,
    };
    let supplies = Supplies {
        args: SUPPLIES.args,
        env: SUPPLIES.env,
        preopens: SUPPLIES.preopens,
        moment: SUPPLIES.moment,
        random: SUPPLIES.random,
        limits,
        input: SUPPLIES.input,
    };
    let answer = open(alloc, &mut session, module, &supplies, volume, &mut why);
    (session, answer)
}

/// What is told of a session.
fn told(kind: u32, call: u32, used: u64) -> Told {
    Told {
        kind,
        code: 0,
        call,
        used,
    }
}

/// Units by which a session is resumed, and the kind, the call and the units that are told then: twice that the units are
/// used up (5), then that fd_write (16) was answered (4), then that the guest exited (0).
static TURNS: [(u64, u32, u32, u64); 5] = [
    (0, 5, 0, 0),
    (4, 5, 0, 4),
    (8, 4, 16, 5),
    (3, 0, 0, 8),
    (1, 0, 0, 8),
];

/// The first row that a session isn't told by.
fn wrong_turn(alloc: Global, session: &mut Handle) -> Option<usize> {
    let mut found = told(9, 9, 9);
    for (i, (units, kind, call, used)) in TURNS.iter().enumerate() {
        let answer = resume(alloc, session, *units, &mut found);
        if answer != OK || found != told(*kind, *call, *used) {
            return Some(i);
        }
    }
    None
}

/// Whether the guest has written this to descriptor 1 from a byte on, and three bytes in all.
fn has_written(alloc: Global, session: &mut Handle, from: usize, shown: &[u8]) -> bool {
    let mut room = [b'.'; 4];
    output(alloc, session, 1, from, &mut room) == 3 && room.as_slice() == shown
}

/// Goes through a session to its end, and takes the sectors of its volume.
fn assert_finishes(
    rt: &impl Abort,
    alloc: Global,
    session: &mut Handle,
    sectors: &mut [[u8; 512]],
) {
    assert_none(rt, wrong_turn(alloc, session));
    assert!(rt; has_written(alloc, session, 0, b"hi\n."));
    assert!(rt; volume_out(alloc, session, sectors) == 0);
    assert!(rt; finish(alloc, session) == OK);
    assert!(rt; has_written(alloc, session, 1, b"i\n.."));
    assert!(rt; volume_out(alloc, session, sectors) == 202);
    assert!(rt; close(alloc, session) == OK);
}

/// Whether a session over a volume is opened, and closed again.
fn is_opened(alloc: Global, volume: &VolumeSource<'_>) -> bool {
    let (mut session, answer) = opened(alloc, &HI, volume);
    let closed = close(alloc, &mut session);
    drop(session);
    answer == OK && closed == OK
}

/// What a session over a fresh volume leaves in the sectors.
fn assert_session(rt: &impl Abort, alloc: Global, sectors: &mut [[u8; 512]]) {
    let (mut session, answer) = opened(alloc, &HI, &FRESH);
    assert!(rt; answer == OK);
    assert_finishes(rt, alloc, &mut session, sectors);
    drop(session);
}

#[test]
fn goes_through_a_session(rt: HostRuntime) {
    let alloc = rt.alloc();
    let mut sectors = [[0; 512]; 202];
    assert_session(&rt, alloc, &mut sectors);
    // the sectors are the volume of the next session
    let volume = VolumeSource {
        kind: 1,
        sectors: &sectors,
    };
    assert!(rt; is_opened(alloc, &volume));
}

/// Kinds of a volume's source, and what opening it answers where it has 202 sectors, and where it has 65,537.
static KINDS: [(u32, u32, u32); 8] = [
    // an empty one, whatever the sectors are
    (0, OK, OK),
    (1, OK, 36),
    (2, OK, 36),
    (3, MISUSE, MISUSE),
    (4, MISUSE, MISUSE),
    // those that may have many
    (5, OK, OK),
    (6, OK, OK),
    (7, MISUSE, MISUSE),
];

/// What opening a session over a volume answers.
fn answer_over(alloc: Global, kind: u32, sectors: &[[u8; 512]]) -> u32 {
    let (session, answer) = opened(alloc, &HI, &VolumeSource { kind, sectors });
    drop(session);
    answer
}

/// The first kind that isn't answered as it says.
fn wrong_kind(alloc: Global, few: &[[u8; 512]], many: &[[u8; 512]]) -> Option<usize> {
    for (i, (kind, over_few, over_many)) in KINDS.iter().enumerate() {
        let is_right = answer_over(alloc, *kind, few) == *over_few
            && answer_over(alloc, *kind, many) == *over_many;
        if !is_right {
            return Some(i);
        }
    }
    None
}

/// Makes sectors volumes of version 4, and opens them as each kind.
fn assert_kinds(rt: &impl Abort, alloc: Global, few: &mut [[u8; 512]], many: &mut [[u8; 512]]) {
    assert!(rt; format(alloc, many, 16) == 36);
    assert!(rt; format_huge(alloc, few, 16) == OK && format_huge(alloc, many, 16) == OK);
    assert_none(rt, wrong_kind(alloc, few, many));
}

#[test]
fn takes_many_sectors_where_that_is_asked_for(rt: HostRuntime) {
    let alloc = rt.alloc();
    let mut few = [[0; 512]; 202];
    let made = vec![in alloc; [0; 512]; 65_537];
    assert!(rt; made.is_ok());
    if let Ok(mut many) = made {
        assert_kinds(&rt, alloc, &mut few, &mut many);
    }
}

/// A guest, the pages, values and bytes that it may have, the kind of its end, what it has written to descriptor 1 then, and
/// whether a write of it was refused since it had written as much as it may.
static LIMITED: [(&[u8], u32, u32, u64, u32, &[u8], u32); 14] = [
    // three bytes, of which those are kept that there is room for
    (&HELLO, 0, 0, 0, 0, b"hi\n", 0),
    (&HELLO, 0, 0, 1, 0, b"h", 1),
    (&HELLO, 0, 0, 2, 0, b"hi", 1),
    (&HELLO, 0, 0, 3, 0, b"hi\n", 0),
    (&HELLO, 0, 0, 4, 0, b"hi\n", 0),
    (&HELLO, 1, 1, u64::MAX, 0, b"hi\n", 0),
    // a page, and two more that are had or not
    (WIDE, 0, 0, 0, 0, b"\x01", 0),
    (WIDE, 1, 0, 0, 0, b"\xFF", 0),
    (WIDE, 2, 0, 0, 0, b"\xFF", 0),
    (WIDE, 3, 0, 0, 0, b"\x01", 0),
    // 20,000 calls, each with a value; memory is refused (3)
    (DEEP, 0, 0, 0, 0, b"deep\n", 0),
    (DEEP, 0, 1, 0, 3, b"", 0),
    (DEEP, 0, 19_999, 0, 3, b"", 0),
    (DEEP, 0, 0, 4, 0, b"deep", 1),
];

/// Whether a guest ends so within limits, and leaves this.
fn ends_so(
    alloc: Global,
    guest: &'static [u8],
    limits: SessionLimits,
    kind: u32,
    written: &[u8],
    filled: u32,
) -> bool {
    let (mut session, answer) = opened_within(alloc, guest, limits, &FRESH);
    let mut found = told(4, 0, 0);
    for _ in 0..4 {
        if found.kind == 4 {
            resume(alloc, &mut session, 1_000_000, &mut found);
        }
    }
    let before = full(alloc, &mut session, 1);
    let ended = finish(alloc, &mut session);
    let mut room = [b'.'; 8];
    let length = output(alloc, &mut session, 1, 0, &mut room);
    let is_so = answer == OK
        && found.kind == kind
        && ended == OK
        && before == filled
        && full(alloc, &mut session, 1) == filled
        && full(alloc, &mut session, 2) == 0
        && full(alloc, &mut session, 0) == 0
        && length == written.len()
        && room.starts_with(written);
    drop(session);
    is_so
}

/// The first row that a guest doesn't end by.
fn wrong_limit(alloc: Global) -> Option<usize> {
    for (i, (guest, pages, values, output, kind, written, filled)) in LIMITED.iter().enumerate() {
        let limits = SessionLimits {
            pages: *pages,
            values: *values,
            output: *output,
            later: [0; 6],
        };
        if !ends_so(alloc, guest, limits, *kind, written, *filled) {
            return Some(i);
        }
    }
    None
}

#[test]
fn bounds_what_a_guest_has(rt: HostRuntime) {
    assert_none(&rt, wrong_limit(rt.alloc()));
}

/// Pages, the last of the limits to come, and what an opening is answered.
static OPENED: [(u32, u64, u32); 5] = [
    (65_536, 0, 0),
    (65_537, 0, 15),
    (u32::MAX, 0, 15),
    (1, 1, 15),
    (1, u64::MAX, 15),
];

/// The first row that isn't answered so.
fn wrong_opening(alloc: Global) -> Option<usize> {
    for (i, (pages, last, want)) in OPENED.iter().enumerate() {
        let limits = SessionLimits {
            pages: *pages,
            values: 0,
            output: 0,
            later: [0, 0, 0, 0, 0, *last],
        };
        let (session, answer) = opened_within(alloc, &HI, limits, &FRESH);
        drop(session);
        if answer != *want {
            return Some(i);
        }
    }
    None
}

#[test]
fn refuses_limits(rt: HostRuntime) {
    assert_none(&rt, wrong_opening(rt.alloc()));
}

/// How often a session of `FILES` is resumed then, a number, and the kind of the operation that is told by it: 1 a write, 2 a
/// sync, 0 none yet. It makes three files, syncs, and writes to one of them twice.
static RECORD: [(usize, usize, u32); 7] = [
    // the opening syncs, and the three files aren't on the device yet
    (0, 0, 2),
    (3, 1, 0),
    // a commit: three images in the log, a sync, the header, a sync, the three in their places, a sync, the header, a sync
    (1, 1, 1),
    (0, 4, 2),
    (0, 12, 2),
    (0, 13, 0),
    (2, 13, 0),
];

/// Whether the operation with this number is told as of this kind.
fn tells(alloc: Global, session: &mut Handle, number: usize, kind: u32) -> bool {
    let mut operation = VolumeOperation {
        kind: 9,
        sector: 0,
        bytes: [0; 512],
    };
    operation_at(alloc, session, number, &mut operation) == OK && operation.kind == kind
}

/// Resumes a session this often.
fn go_on(alloc: Global, session: &mut Handle, times: usize) {
    let mut found = told(9, 9, 9);
    for _ in 0..times {
        resume(alloc, session, 1_000, &mut found);
    }
}

/// The first row that a session's operations aren't told by.
fn wrong_record(alloc: Global, session: &mut Handle) -> Option<usize> {
    for (i, (times, number, kind)) in RECORD.iter().enumerate() {
        go_on(alloc, session, *times);
        if !tells(alloc, session, *number, *kind) {
            return Some(i);
        }
    }
    None
}

/// Goes through a session over a recorded volume to its end.
fn assert_records(rt: &impl Abort, alloc: Global, volume: &VolumeSource<'_>) {
    let (mut session, answer) = opened(alloc, FILES, volume);
    assert!(rt; answer == OK);
    assert_none(rt, wrong_record(alloc, &mut session));
    assert!(rt; finish(alloc, &mut session) == OK);
    // what was written since is committed in the same way
    assert!(rt; tells(alloc, &mut session, 13, 1) && tells(alloc, &mut session, 100, 2));
    assert!(rt; tells(alloc, &mut session, 101, 0));
    drop(session);
}

#[test]
fn tells_operations_while_it_runs(rt: HostRuntime) {
    let mut sectors = [[0; 512]; 202];
    assert!(rt; format(rt.alloc(), &mut sectors, 16) == OK);
    let volume = VolumeSource {
        kind: 2,
        sectors: &sectors,
    };
    assert_records(&rt, rt.alloc(), &volume);
}

/// What is asked of a handle without a session.
fn assert_empty(rt: &impl Abort, alloc: Global, none: &mut Handle) {
    let mut found = told(9, 9, 9);
    assert!(rt; resume(alloc, none, 1, &mut found) == MISUSE && found == told(9, 9, 9));
    assert!(rt; finish(alloc, none) == MISUSE && close(alloc, none) == MISUSE);
    assert!(rt; full(alloc, none, 1) == 0 && full(alloc, none, 9) == 0);
}

#[test]
fn answers_misuse(rt: HostRuntime) {
    let alloc = rt.alloc();
    let mut none = Handle::empty(alloc);
    assert_empty(&rt, alloc, &mut none);
    drop(none);
    let unknown = VolumeSource {
        kind: 3,
        sectors: &[],
    };
    let (session, answer) = opened(alloc, &HI, &unknown);
    drop(session);
    assert!(rt; answer == MISUSE);
}

/// The texts of the traps, by their numbers, and none past the last.
static TRAPS: [&[u8]; 10] = [
    b"unreachable",
    b"integer divide by zero",
    b"integer overflow",
    b"out of bounds memory access",
    b"undefined element",
    b"uninitialized element",
    b"indirect call type mismatch",
    b"call stack exhausted",
    b"invalid conversion to integer",
    b"",
];

/// The first trap whose text is another.
fn wrong_text() -> Option<usize> {
    for (i, want) in TRAPS.iter().enumerate() {
        let mut room = [0; 32];
        if text(1, i as u32, &mut room) != want.len() || !room.starts_with(want) {
            return Some(i);
        }
    }
    None
}

#[test]
fn gives_the_texts_of_traps(rt: HostRuntime) {
    assert_none(&rt, wrong_text());
}

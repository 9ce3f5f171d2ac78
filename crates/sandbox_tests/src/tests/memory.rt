//! Sessions to which memory is refused once, at any moment. `bench/growths` runs the test here with each growth refused in turn;
//! where none is, it only shows that the guests run.

use super::guests::{DEEP, FILES, WIDE};
use super::sessions::{NoSession, PLAIN, Ran, Small, faulty, formatted, made, mounted, whole_run};
use super::writer::Bounded;
use sandbox_core::{
    HostParts, LoadFault, Outcome, RefusedSession, SessionFault, Valid, Volume, load,
};
use std::alloc::Global;
use std::process::Abort;
use std::test::Fail;
use vol_sector::{Device, MemoryDevice, Refused, VolumeFault};
use wasm_tests::HELLO;

/// More than any guest here uses.
const FUEL: u64 = 1_000_000;

/// Who was refused memory.
#[derive(Clone, Copy, Debug)]
enum Asking {
    Nobody,
    /// The device or the writer of the test itself.
    Test,
    Load,
    Open,
    New,
    /// The guest while it runs.
    Guest,
}

/// A guest, what it prints, and how it ends and what it has printed where memory is refused to its run.
#[derive(Clone, Copy)]
struct Guest {
    module: &'static [u8],
    line: &'static [u8],
    refused: Outcome,
    left: &'static [u8],
}

static GUESTS: [Guest; 4] = [
    // neither these two nor their calls ask for memory
    Guest {
        module: &HELLO,
        line: b"hi\n",
        refused: Outcome::Exited(0),
        left: b"hi\n",
    },
    Guest {
        module: FILES,
        line: &[0; 6],
        refused: Outcome::Exited(0),
        left: &[0; 6],
    },
    Guest {
        module: DEEP,
        line: b"deep\n",
        refused: Outcome::OutOfMemory,
        left: b"",
    },
    Guest {
        module: WIDE,
        line: b"\x01",
        refused: Outcome::Exited(0),
        left: b"\xFF",
    },
];

/// A device with a volume, at the second try where memory was refused at the first, and whether it was.
fn supplied_device(rt: &impl Abort, alloc: Global) -> (bool, MemoryDevice) {
    match formatted(alloc) {
        Some(device) => (false, device),
        None => (true, formatted(alloc).expect(rt, "a device")),
    }
}

/// A writer with room, and whether memory was refused to it once.
fn supplied_writer(rt: &impl Abort, alloc: Global) -> (bool, Bounded) {
    let mut out = Bounded::new(alloc, 100, 100, None);
    let refused = out.held.reserve(100).is_err();
    if refused {
        out.held.reserve(100).ok().expect(rt, "room");
    }
    (refused, out)
}

/// The module, which is loaded at the second try where memory was refused at the first.
fn loaded<'a>(rt: &impl Abort, alloc: Global, bytes: &'a [u8]) -> (bool, Valid<'a>) {
    match load(alloc, bytes) {
        Ok(valid) => (false, valid),
        Err(fault) => {
            assert!(rt; fault == LoadFault::Memory);
            (true, load(alloc, bytes).ok().expect(rt, "a module"))
        }
    }
}

/// The volume on the device that a refusal for memory handed back.
fn opened_again<D: Device + Drop>(
    rt: &impl Abort,
    alloc: Global,
    refused: Refused<D>,
) -> Volume<D> {
    let Refused { device, fault } = refused;
    assert!(rt; fault == VolumeFault::Memory);
    mounted(alloc, device).expect(rt, "a volume")
}

/// The same of the volume.
fn opened<D: Device + Drop>(rt: &impl Abort, alloc: Global, device: D) -> (bool, Volume<D>) {
    match Volume::open(alloc, device) {
        Ok(volume) => (false, volume),
        Err(refused) => (true, opened_again(rt, alloc, refused)),
    }
}

/// A session of all that a refusal for memory handed back.
fn made_again<'a, D: Device + Drop>(
    rt: &impl Abort,
    alloc: Global,
    refused: NoSession<'a, D>,
) -> Small<'a, D> {
    let RefusedSession {
        valid,
        parts,
        fault,
    } = refused;
    assert!(rt; fault == SessionFault::Memory);
    let HostParts {
        settings,
        volume,
        input,
        out,
        err,
    } = parts;
    made(alloc, valid, &settings, volume, input, out, err)
        .ok()
        .expect(rt, "a session")
}

/// The same of the session.
fn begun<'a, D: Device + Drop>(
    rt: &impl Abort,
    alloc: Global,
    valid: Valid<'a>,
    volume: Volume<D>,
    out: Bounded,
) -> (bool, Small<'a, D>) {
    let err = Bounded::new(alloc, 1, 1, None);
    match made(alloc, valid, &PLAIN, volume, b"", out, err) {
        Ok(session) => (false, session),
        Err(refused) => (true, made_again(rt, alloc, refused)),
    }
}

/// Whether a guest ended so and printed this.
fn is_ended<D: Device>(report: &Ran<D>, want: Outcome, line: &[u8]) -> bool {
    report.outcome == want && report.out.held.as_slice() == line
}

/// Whether a run ended as where there is memory. It may also end as where memory was refused to it, and in no other way;
/// and all was committed.
fn is_whole<D: Device>(rt: &impl Abort, report: &Ran<D>, guest: &Guest) -> bool {
    let whole = is_ended(report, Outcome::Exited(0), guest.line);
    assert!(rt; whole || is_ended(report, guest.refused, guest.left));
    assert!(rt; report.volume.is_ok());
    whole
}

/// Who was refused memory, by whether the test's device and its writer, `load`, `open`, `new` and the run were; none where
/// more than one was.
fn refused_one(refused: [bool; 6]) -> Option<Asking> {
    match refused {
        [false, false, false, false, false, false] => Some(Asking::Nobody),
        [true, false, false, false, false, false] => Some(Asking::Test),
        [false, true, false, false, false, false] => Some(Asking::Test),
        [false, false, true, false, false, false] => Some(Asking::Load),
        [false, false, false, true, false, false] => Some(Asking::Open),
        [false, false, false, false, true, false] => Some(Asking::New),
        [false, false, false, false, false, true] => Some(Asking::Guest),
        _ => None,
    }
}

/// Makes a session of the guest on the device, and runs it. Whether memory was refused to `load`, to `open`, to `new`, and
/// to the run.
fn asked_on<D: Device + Drop>(
    rt: &impl Abort,
    alloc: Global,
    guest: &Guest,
    device: D,
    out: Bounded,
) -> [bool; 4] {
    let (load, valid) = loaded(rt, alloc, guest.module);
    let (open, volume) = opened(rt, alloc, device);
    let (new, session) = begun(rt, alloc, valid, volume, out);
    let report = whole_run(rt, session, FUEL);
    let whole = is_whole(rt, &report, guest);
    drop(report);
    [load, open, new, !whole]
}

/// The same of a device and a writer for it: who was refused memory. None where more than one was.
fn asked(rt: &impl Abort, alloc: Global, guest: &Guest) -> Option<Asking> {
    let (writer, out) = supplied_writer(rt, alloc);
    let (memory, device) = supplied_device(rt, alloc);
    let [load, open, new, run] = asked_on(rt, alloc, guest, faulty(device, 0, u64::MAX), out);
    refused_one([memory, writer, load, open, new, run])
}

#[test]
fn want_of_memory_is_answered_and_loses_nothing(rt: HostRuntime) -> Result<(), Fail> {
    for (i, guest) in GUESTS.iter().enumerate() {
        match asked(&rt, rt.alloc(), guest) {
            Some(Asking::Nobody) => {}
            Some(answer) => println!(&rt; "{i} Some({answer:?})")?,
            None => panic!(rt; "guest {i}"),
        }
    }
    Ok(())
}

//! A guest that calls its own functions and the host, and traps.

ghost use Rattle.std.specs.Prelude.{decimal};

use observed_run::{FuelProfile, Names, run_profiled, run_told};
use sandbox_core::{
    Frame, Outcome, Preopen, Resumable, Session, Settings, SharedModule, SharedSession, Trap,
    Valid, Volume, load,
};
use std::alloc::Global;
use std::io;
use std::io::Write;
use std::process::Abort;
use vol_sector::MemoryDevice;

/// As wabt's `wat2wasm` writes it. Function 0 is imported, `sched_yield`. Of the module's own, function 0 adds 1 to what it is given, in
/// three instructions. Function 1 asks the host to yield, and calls function 0 twice. Function 2 is `_start`: it calls function 1, and
/// divides 1 by 0.
const CALLER: &[u8] = b"\0asm\x01\0\0\0\
    \x01\x11\x04`\0\x01\x7F`\x01\x7F\x01\x7F`\x01\x7F\0`\0\0\
    \x02&\x01\x16wasi_snapshot_preview1\x0Bsched_yield\0\0\
    \x03\x04\x03\x01\x02\x03\
    \x05\x03\x01\0\x01\
    \x07\x13\x02\x06memory\x02\0\x06_start\0\x03\
    \x0A#\x03\
    \x07\0\x20\0A\x01j\x0B\
    \x0C\0\x10\0\x1A\x20\0\x10\x01\x10\x01\x1A\x0B\
    \x0C\0A\x03\x10\x02A\x01A\0n\x1A\x0B";

/// The root as `/`, and nothing else.
static PLAIN: Settings<'static, 'static> = Settings {
    args: &[],
    env: &[],
    preopens: &[Preopen {
        guest_name: b"/",
        path: b"/",
    }],
    moment: 0,
    random: b"",
    pages: 4,
};

type Owning = Session<'static, 'static, 'static, MemoryDevice, &'static [u8], Vec<u8>, Vec<u8>>;

type Sharing = SharedSession<
    'static,
    'static,
    'static,
    MemoryDevice,
    &'static [u8],
    Vec<u8>,
    Vec<u8>,
>;

fn volume(alloc: Global) -> Option<Volume<MemoryDevice>> {
    let device = MemoryDevice::new(alloc, 202, 400).ok()?;
    match Volume::format(device, 202, 16) {
        Ok(device) => Volume::open(alloc, device).ok(),
        Err(_) => None,
    }
}

fn owning(alloc: Global) -> Option<Owning> {
    let valid = load(alloc, CALLER).ok()?;
    let (out, err) = (Vec::new(alloc), Vec::new(alloc));
    Session::new(
        alloc,
        valid,
        PLAIN,
        volume(alloc)?,
        b"".as_slice(),
        out,
        err,
    )
    .ok()
}

fn sharing(rt: &impl Abort, alloc: Global) -> Option<Sharing> {
    let valid = load(alloc, CALLER).ok()?;
    let shared = SharedModule::new(alloc, valid, 4).ok()?;
    assert!(rt; shared.pages() == 4);
    let (out, err) = (Vec::new(alloc), Vec::new(alloc));
    SharedSession::new(
        alloc,
        &shared,
        PLAIN,
        volume(alloc)?,
        b"".as_slice(),
        out,
        err,
    )
    .ok()
}

/// How a run ends, how many units it has used, and how many functions are at work then.
type End = (Outcome, u64, usize);

/// A function of the module's own, and the instruction that it goes on with.
type Place = (usize, usize);

/// Whether the first frames are these.
fn are_frames(room: &[Frame], wanted: &[Place]) -> bool {
    wanted.iter().zip(room.iter()).all(|(want, frame)| frame.own == want.0 && frame.next == want.1)
}

/// Whether a run tells so, with room for three frames.
fn tells<S>(rt: &impl Abort, session: S, fuel: u64, end: End, wanted: &[Place]) -> bool
where
    S: Resumable<MemoryDevice, &'static [u8], Vec<u8>, Vec<u8>>,
{
    assert!(rt; session.used() == 0);
    let mut room = [Frame { own: 9, next: 9 }; 3];
    let told = run_told(session, fuel, &mut room);
    let found = (told.report.outcome, told.report.used, told.depth);
    drop(told);
    found == end && are_frames(&room, wanted)
}

const TRAP: Outcome = Outcome::Trapped(Trap::DivideByZero);

#[test]
fn tells_the_frames_of_a_trap(rt: HostRuntime) {
    let session = owning(rt.alloc()).expect(&rt, "a session");
    assert!(rt; tells(&rt, session, 100, (TRAP, 17, 1), &[(2, 4)]));
    let session = sharing(&rt, rt.alloc()).expect(&rt, "a session");
    assert!(rt; tells(&rt, session, 100, (TRAP, 17, 1), &[(2, 4)]));
}

#[test]
fn tells_the_frames_out_of_fuel(rt: HostRuntime) {
    let session = owning(rt.alloc()).expect(&rt, "a session");
    let end = (Outcome::OutOfFuel, 7, 3);
    assert!(rt; tells(&rt, session, 7, end, &[(0, 1), (1, 4), (2, 2)]));
}

/// Functions are called by their indices.
struct Indices;

impl Names for Indices {
    ghost text = { λ names function. decimal function };

    fn add(&self, line: &mut Vec<u8>, function: usize) -> io::Result<()> {
        write!(line, "{function}")
    }
}

/// Whether a run in slices of so many units has this profile.
fn has_profile(rt: &impl Abort, alloc: Global, every: u64, wanted: &[u8]) -> bool {
    let session = owning(alloc).expect(rt, "a session");
    assert!(rt; session.used() == 0);
    let mut profile = FuelProfile::new(alloc, 100).expect(rt, "a profile");
    let told = run_profiled(alloc, session, 100, every, &mut profile, &mut []);
    let used = told.report.used;
    drop(told);
    let mut text = Vec::new(alloc);
    let printed = profile.print(alloc, &Indices, &mut text).is_ok();
    printed && used == 17 && text.as_slice() == wanted
}

#[test]
fn charges_units_to_stacks(rt: HostRuntime) {
    assert!(rt; has_profile(&rt, rt.alloc(), 0, b"2 5\n2;1 6\n2;1;0 6\n"));
    assert!(rt; has_profile(&rt, rt.alloc(), 1, b"2 5\n2;1 6\n2;1;0 6\n"));
    assert!(rt; has_profile(&rt, rt.alloc(), 7, b"2 10\n2;1;0 7\n"));
    assert!(rt; has_profile(&rt, rt.alloc(), 100, b"2 17\n"));
}

//! A guest's calls, one after another, and what they answer.

use super::streams::{Feeding, Taking};
use std::alloc::Global;
use std::process::Abort;
use vol_sector::{FlakyDevice, MemoryDevice};
use vol_tree::Volume;
use wasi_calls::{HostFault, HostParts, Preopen, Settings, Terminals, WasiHost};
use wasm_store::{Answer, Errno, Host, HostCall, Memory};

/// What a guest does, and what is wanted of it.
#[derive(Clone, Copy)]
pub enum Step<'a> {
    /// Puts bytes into memory at an address.
    Put(u32, &'a [u8]),
    /// Makes a call with these arguments, which answers this errno.
    Call(HostCall, &'a [u64], u16),
    /// Memory has these bytes at an address.
    Has(u32, &'a [u8]),
    /// Opens a path from descriptor 3, with these oflags and all rights, which answers this errno.
    Open(&'a [u8], u64, u16),
    /// Makes a call on a path from descriptor 3. What it tells of it stands at `STAT`.
    On(HostCall, &'a [u8], u16),
    /// Renames a path to another, both from descriptor 3.
    Rename(&'a [u8], &'a [u8], u16),
}

/// Where a path stands in memory, the second path of a call, a number of `path_open`, and what `path_filestat_get` tells.
const PATH: u32 = 60_000;

const OTHER_PATH: u32 = 61_000;

const OPENED: u64 = 62_000;

pub const STAT: u32 = 62_008;

/// The units used at each call, the call's among them.
const USED: u64 = 4;

/// The root as `/`, and nothing else.
pub static PLAIN: Settings<'static, 'static> = Settings {
    args: &[],
    env: &[],
    preopens: &[Preopen {
        guest_name: b"/",
        path: b"/",
    }],
    moment: 0,
    random: b"",
    pages: 1,
};

pub type Guest<'s, 't> = WasiHost<'s, 't, FlakyDevice<MemoryDevice>, Feeding, Taking, Taking>;

/// A volume on a device, of whose operations one fails.
pub type Flaky = Volume<FlakyDevice<MemoryDevice>>;

/// A fresh volume of this many sectors and 16 slots, on a device whose operation of this number fails, or none does where
/// it is 0; none where it can't be opened.
pub fn opened_on(alloc: Global, sectors: u32, failing: u64) -> Option<Flaky> {
    let device = MemoryDevice::new(alloc, sectors, 2_000).ok()?;
    let device = Volume::format(device, sectors, 16).ok()?;
    Volume::open(alloc, FlakyDevice::new(device, failing)).ok()
}

/// One of 202 sectors.
pub fn opened(alloc: Global, failing: u64) -> Option<Flaky> {
    opened_on(alloc, 202, failing)
}

/// A host of these settings over a volume and this output, with its directories open.
pub fn host<'s, 't>(
    alloc: Global,
    settings: Settings<'s, 't>,
    volume: Flaky,
    input: Feeding,
    out: Taking,
) -> Result<Guest<'s, 't>, HostFault> {
    let parts = HostParts {
        settings,
        volume,
        input,
        out,
        err: Taking::all(alloc),
    };
    match WasiHost::new(alloc, parts) {
        Ok(mut host) => match host.preopen() {
            Ok(()) => Ok(host),
            Err(fault) => {
                drop(host);
                Err(fault)
            }
        },
        Err(refused) => {
            let fault = refused.fault;
            drop(refused);
            Err(fault)
        }
    }
}

/// A host that works, over a volume.
pub fn over<'s, 't>(
    rt: &impl Abort,
    alloc: Global,
    settings: Settings<'s, 't>,
    volume: Flaky,
    input: Feeding,
    out: Taking,
) -> Guest<'s, 't> {
    host(alloc, settings, volume, input, out)
        .ok()
        .expect(rt, "no host")
}

/// A host over a fresh volume.
pub fn fresh<'s, 't>(
    rt: &impl Abort,
    alloc: Global,
    settings: Settings<'s, 't>,
    input: Feeding,
    out: Taking,
) -> Guest<'s, 't> {
    let volume = opened(alloc, 0).expect(rt, "no volume");
    over(rt, alloc, settings, volume, input, out)
}

/// Whether memory has these bytes at an address.
fn has_bytes(memory: &mut Memory, address: u32, bytes: &[u8]) -> bool {
    match u32::try_from(bytes.len()) {
        Ok(len) => memory.slice(address, len) == Some(bytes),
        Err(_) => false,
    }
}

/// Whether a call answers this errno. (What only makes calls is written for any host, which costs its proof less.)
fn answers<H: Host>(
    guest: &mut H,
    memory: &mut Memory,
    call: HostCall,
    arguments: &[u64],
    errno: u16,
) -> bool {
    guest.call(memory, USED, call, arguments) == Answer::Value(Errno(errno))
}

/// Makes a call on a path, and says whether it answers this errno.
fn answers_on<H: Host>(
    guest: &mut H,
    memory: &mut Memory,
    call: HostCall,
    path: &[u8],
    errno: u16,
) -> bool {
    let (at, len) = (u64::from(PATH), path.len() as u64);
    if !memory.write(PATH, path) {
        return false;
    }
    match call {
        HostCall::PathFilestatGet => {
            answers(
                guest,
                memory,
                call,
                &[3, 0, at, len, u64::from(STAT)],
                errno,
            )
        }
        _ => answers(guest, memory, call, &[3, at, len], errno),
    }
}

/// Opens a path with these oflags, and says whether that answers this errno.
fn opens<H: Host>(
    guest: &mut H,
    memory: &mut Memory,
    path: &[u8],
    oflags: u64,
    errno: u16,
) -> bool {
    let (at, len) = (u64::from(PATH), path.len() as u64);
    let arguments = [3, 0, at, len, oflags, u64::MAX, u64::MAX, 0, OPENED];
    memory.write(PATH, path) && answers(guest, memory, HostCall::PathOpen, &arguments, errno)
}

/// Renames a path to another, and says whether that answers this errno.
fn renames<H: Host>(
    guest: &mut H,
    memory: &mut Memory,
    from: &[u8],
    to: &[u8],
    errno: u16,
) -> bool {
    let (at, other) = (u64::from(PATH), u64::from(OTHER_PATH));
    let arguments = [3, at, from.len() as u64, 3, other, to.len() as u64];
    memory.write(PATH, from)
        && memory.write(OTHER_PATH, to)
        && answers(guest, memory, HostCall::PathRename, &arguments, errno)
}

/// Does a step, and says whether it is as wanted.
fn is_as_wanted<H: Host>(guest: &mut H, memory: &mut Memory, step: &Step<'_>) -> bool {
    match step {
        Step::Put(address, bytes) => memory.write(*address, bytes),
        Step::Call(call, arguments, errno) => answers(guest, memory, *call, arguments, *errno),
        Step::Has(address, bytes) => has_bytes(memory, *address, bytes),
        Step::Open(path, oflags, errno) => opens(guest, memory, path, *oflags, *errno),
        Step::On(call, path, errno) => answers_on(guest, memory, *call, path, *errno),
        Step::Rename(from, to, errno) => renames(guest, memory, from, to, *errno),
    }
}

fn assert_all<H: Host>(rt: &impl Abort, guest: &mut H, memory: &mut Memory, steps: &[Step<'_>]) {
    for (i, step) in steps.iter().enumerate() {
        assert!(rt; is_as_wanted(guest, memory, step), "step {i}");
    }
}

/// Does the steps in turn, in a page of memory.
pub fn assert_steps<H: Host>(rt: &impl Abort, alloc: Global, guest: &mut H, steps: &[Step<'_>]) {
    let mut memory = Memory::new(alloc, 1).expect(rt, "no memory");
    assert_all(rt, guest, &mut memory, steps);
    drop(memory);
}

/// What is done with a host before its first call.
#[derive(Clone, Copy)]
pub enum Prepared {
    Plain,
    Seeded(u64),
    Interactive(Terminals),
}

/// Does the steps in turn over a volume, with a host that is prepared so. (Each function that owns a guest
/// costs its proof several seconds, so this one is for most tests.)
pub fn assert_over(
    rt: &impl Abort,
    alloc: Global,
    settings: Settings<'_, '_>,
    volume: Flaky,
    input: Feeding,
    prepared: Prepared,
    steps: &[Step<'_>],
) {
    let mut guest = over(rt, alloc, settings, volume, input, Taking::all(alloc));
    match prepared {
        Prepared::Plain => {}
        Prepared::Seeded(seed) => guest.seed(seed),
        Prepared::Interactive(terminals) => guest.interact(terminals),
    }
    assert_steps(rt, alloc, &mut guest, steps);
    drop(guest);
}

/// Does the steps in turn over a fresh volume with these settings, preopened directories and input.
pub fn assert_fed(
    rt: &impl Abort,
    alloc: Global,
    settings: Settings<'_, '_>,
    input: Feeding,
    steps: &[Step<'_>],
) {
    let volume = opened(alloc, 0).expect(rt, "no volume");
    assert_over(rt, alloc, settings, volume, input, Prepared::Plain, steps);
}

/// Does the steps in turn over a fresh volume, with random bytes from this seed.
pub fn assert_seeded(rt: &impl Abort, alloc: Global, seed: u64, steps: &[Step<'_>]) {
    let volume = opened(alloc, 0).expect(rt, "no volume");
    assert_over(
        rt,
        alloc,
        PLAIN,
        volume,
        Feeding::new(&[]),
        Prepared::Seeded(seed),
        steps,
    );
}

/// The same without input.
pub fn assert_with(rt: &impl Abort, alloc: Global, settings: Settings<'_, '_>, steps: &[Step<'_>]) {
    assert_fed(rt, alloc, settings, Feeding::new(&[]), steps);
}

/// Does the steps in turn over a fresh volume, with the root as descriptor 3.
pub fn assert_plain(rt: &impl Abort, alloc: Global, steps: &[Step<'_>]) {
    assert_with(rt, alloc, PLAIN, steps);
}

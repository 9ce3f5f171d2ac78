//! Settings, and sessions of one program.

use super::writer::Bounded;
use sandbox_core::{
    Errno, Finished, HostCall, HostParts, InstanceFault, Outcome, Pause, Preopen, RefusedSession,
    Report, Session, SessionFault, Settings, Valid, Volume, load, run,
};
use std::alloc::Global;
use std::io::ErrorKind;
use std::process::Abort;
use stream_answers::{Inlet, Outlet};
use vol_sector::{Device, FlakyDevice, FuseDevice, MemoryDevice};
use wasm_tests::HELLO;

fn settings<'a, 't>(
    args: &'a [&'t [u8]],
    env: &'a [&'t [u8]],
    preopens: &'a [Preopen<'t>],
    pages: u32,
) -> Settings<'a, 't> {
    Settings {
        args,
        env,
        preopens,
        moment: 0,
        random: &[],
        pages,
    }
}

/// Fails a test of whose table's rows, counted from 0, this one isn't as it says.
pub fn assert_none(rt: &impl Abort, wrong: Option<usize>) {
    if let Some(row) = wrong {
        panic!(rt; "row {row}");
    }
}

/// The first row of texts that don't fit as it says, both as arguments and as an environment.
fn wrong_texts(rows: &[(&[&[u8]], bool)]) -> Option<usize> {
    for (i, (texts, fit)) in rows.iter().enumerate() {
        let as_arguments = settings(texts, &[], &[], 1).fits();
        let as_environment = settings(&[], texts, &[], 1).fits();
        if as_arguments != *fit || as_environment != *fit {
            return Some(i);
        }
    }
    None
}

#[test]
fn limits_the_number_of_texts(rt: HostRuntime) {
    let most = [b"".as_slice(); 1_024];
    let over = [b"".as_slice(); 1_025];
    let rows: [(&[&[u8]], bool); 3] = [(&[], true), (&most, true), (&over, false)];
    assert_none(&rt, wrong_texts(&rows));
}

/// The first row that isn't as it says, of texts that have a byte less than the most that fit, exactly as many, and a byte more.
fn wrong_length<'a>(less: &'a [u8], most: &'a [u8], over: &'a [u8]) -> Option<usize> {
    wrong_texts(&[
        (&[most], true),
        (&[over], false),
        (&[less, b""], true),
        (&[most, b""], false),
    ])
}

#[test]
fn limits_the_bytes_of_texts(rt: HostRuntime) {
    // Each text has a byte more for its end.
    let wrong = wrong_length(&[b'a'; 65_534], &[b'a'; 65_535], &[b'a'; 65_536]);
    assert_none(&rt, wrong);
}

#[test]
fn texts_have_no_zeros(rt: HostRuntime) {
    let rows: [(&[&[u8]], bool); 2] = [(&[b"", b"a=b"], true), (&[b"", b"a\0b"], false)];
    assert_none(&rt, wrong_texts(&rows));
}

/// The first row of a preopen's name that doesn't fit as it says.
fn wrong_name(rows: &[(&[u8], bool)]) -> Option<usize> {
    for (i, (guest_name, fit)) in rows.iter().enumerate() {
        let preopens = [Preopen {
            guest_name,
            path: b"/",
        }];
        if settings(&[], &[], &preopens, 1).fits() != *fit {
            return Some(i);
        }
    }
    None
}

#[test]
fn limits_the_names_of_preopens(rt: HostRuntime) {
    let long = [b'a'; 256];
    let wrong = wrong_name(&[
        (b"/", true),
        (&[], false),
        (&long[..255], true),
        (&long, false),
        (b"a\0", false),
    ]);
    assert_none(&rt, wrong);
}

/// Whether settings of this many pages fit as it says.
fn are_fit(preopens: &[Preopen<'_>], pages: u32, fit: bool) -> bool {
    settings(&[], &[], preopens, pages).fits() == fit
}

#[test]
fn limits_preopens_and_pages(rt: HostRuntime) {
    let one = Preopen {
        guest_name: b"a",
        path: b"/",
    };
    assert!(rt; are_fit(&[one; 64], 1, true));
    assert!(rt; are_fit(&[one; 65], 1, false));
    assert!(rt; are_fit(&[], 65_536, true));
    assert!(rt; are_fit(&[], 65_537, false));
}

/// Whether a fault is printed as this text.
fn prints(rt: &impl Abort, alloc: Global, fault: &SessionFault, text: &str) -> bool {
    format!(in alloc; "{fault}").expect(rt, "memory").as_str() == text
}

/// Faults and their texts.
static FAULTS: [(SessionFault, &str); 8] = [
    (SessionFault::Setting, "fault 15"),
    (SessionFault::Instance(InstanceFault::Import), "fault 13"),
    (SessionFault::Instance(InstanceFault::NoStart), "fault 14"),
    (SessionFault::Instance(InstanceFault::PageLimit), "fault 22"),
    (
        SessionFault::Instance(InstanceFault::DataOutOfBounds),
        "fault 20",
    ),
    (SessionFault::Device, "fault 33"),
    (SessionFault::Preopen, "fault 16"),
    (SessionFault::Memory, "out of memory"),
];

/// The first row of a fault that isn't printed as it says.
fn wrong_print(rt: &impl Abort, alloc: Global) -> Option<usize> {
    for (i, (fault, text)) in FAULTS.iter().enumerate() {
        if !prints(rt, alloc, fault, text) {
            return Some(i);
        }
    }
    None
}

#[test]
fn prints_faults(rt: HostRuntime) {
    assert_none(&rt, wrong_print(&rt, rt.alloc()));
}

/// `HELLO`, which is spelled out only here.
static HI: [u8; 168] = HELLO;

/// A module with nothing in it.
static NOTHING: &[u8] = b"\x00asm\x01\x00\x00\x00";

/// The root as `/`, and nothing else.
pub static PLAIN: Settings<'static, 'static> = Settings {
    args: &[],
    env: &[],
    preopens: &[Preopen {
        guest_name: b"/",
        path: b"/",
    }],
    moment: 0,
    random: b"",
    pages: 1_024,
};

/// A directory that isn't there as `/`, and nothing else.
static MISSING: Settings<'static, 'static> = Settings {
    args: &[],
    env: &[],
    preopens: &[Preopen {
        guest_name: b"/",
        path: b"/d",
    }],
    moment: 0,
    random: b"",
    pages: 1_024,
};

/// A device in memory, of whose operations one may fail, and all from one on: one type for all tests. (What owns a session
/// or a volume is written for any device, which costs its proof less.)
pub type Disk = FlakyDevice<FuseDevice<MemoryDevice>>;

/// A session over a volume on a device.
pub type Small<'a, D> = Session<'a, 'static, 'static, D, &'static [u8], Bounded, Bounded>;

/// What such a session was to be made of, handed back.
pub type NoSession<'a, D> = RefusedSession<
    'a,
    'static,
    'static,
    D,
    &'static [u8],
    Bounded,
    Bounded,
>;

/// How such a session ran.
pub type Ran<D> = Report<D, &'static [u8], Bounded, Bounded>;

/// The device whose operation of this number fails, and all after this many.
pub fn faulty(device: MemoryDevice, failing: u64, passes: u64) -> Disk {
    FlakyDevice::new(FuseDevice::new(device, passes), failing)
}

pub fn memory_of(disk: Disk) -> MemoryDevice {
    disk.into_inner().into_inner()
}

/// A device with a fresh volume of this many sectors and 16 slots.
pub fn formatted_with(alloc: Global, sectors: u32) -> Option<MemoryDevice> {
    let device = faulty(MemoryDevice::new(alloc, sectors, 400).ok()?, 0, u64::MAX);
    match Volume::format(device, sectors, 16) {
        Ok(device) => Some(memory_of(device)),
        Err(_) => None,
    }
}

pub fn formatted(alloc: Global) -> Option<MemoryDevice> {
    formatted_with(alloc, 202)
}

/// A device that works, with a fresh volume.
pub fn fresh(rt: &impl Abort, alloc: Global) -> Disk {
    faulty(formatted(alloc).expect(rt, "a device"), 0, u64::MAX)
}

/// The volume on a device.
pub fn mounted<D: Device + Drop>(alloc: Global, device: D) -> Option<Volume<D>> {
    Volume::open(alloc, device).ok()
}

/// `Session::new` without its contract, so that a call costs a caller's proof less.
pub fn made<'a, D: Device + Drop>(
    alloc: Global,
    valid: Valid<'a>,
    settings: &Settings<'static, 'static>,
    volume: Volume<D>,
    input: &'static [u8],
    out: Bounded,
    err: Bounded,
) -> Result<Small<'a, D>, NoSession<'a, D>> {
    Session::new(alloc, valid, *settings, volume, input, out, err)
}

/// The module that these bytes are.
fn valid_of<'a>(rt: &impl Abort, alloc: Global, module: &'a [u8]) -> Valid<'a> {
    load(alloc, module).ok().expect(rt, "a module")
}

/// A session of a module over the volume on a device, of whose output this many bytes are taken. None where the device
/// fails.
fn over<'a, D: Device + Drop>(
    rt: &impl Abort,
    alloc: Global,
    module: &'a [u8],
    device: D,
    input: &'static [u8],
    most: usize,
) -> Option<Small<'a, D>> {
    let volume = mounted(alloc, device)?;
    let valid = valid_of(rt, alloc, module);
    let out = Bounded::new(alloc, 100, most, Some(ErrorKind::BrokenPipe));
    let err = Bounded::new(alloc, 1, 1, None);
    made(alloc, valid, &PLAIN, volume, input, out, err).ok()
}

/// The session's run from its beginning.
pub fn whole_run<D, R, W1, W2>(
    rt: &impl Abort,
    session: Session<'_, '_, '_, D, R, W1, W2>,
    fuel: u64,
) -> Report<D, R, W1, W2>
where
    D: Device + Drop,
    R: Inlet + Drop,
    W1: Outlet + Drop,
    W2: Outlet + Drop,
{
    assert!(rt; session.used() == 0);
    run(session, fuel)
}

/// The run of a guest over the volume on a device. None where the device fails before it.
pub fn run_over<D: Device + Drop>(
    rt: &impl Abort,
    alloc: Global,
    module: &[u8],
    device: D,
    input: &'static [u8],
    fuel: u64,
) -> Option<Ran<D>> {
    let session = over(rt, alloc, module, device, input, 1_000)?;
    Some(whole_run(rt, session, fuel))
}

/// A module, the fuel, how its run ends, and the units that it has used then.
pub type Row<'a> = (&'a [u8], u64, Outcome, u64);

/// Whether a guest ended as a row says, and printed exactly this.
fn is_end<D: Device>(report: &Ran<D>, row: &Row<'_>, printed: &[u8]) -> bool {
    report.outcome == row.2
        && report.used == row.3
        && report.out.held.as_slice() == printed
        && report.err.held.is_empty()
}

/// The same of a run over the volume on a device.
fn ends_on<D: Device + Drop>(
    rt: &impl Abort,
    alloc: Global,
    row: &Row<'_>,
    printed: &[u8],
    device: D,
) -> bool {
    let session = over(rt, alloc, row.0, device, b"", 100).expect(rt, "a session");
    let report = whole_run(rt, session, row.1);
    let is_right = is_end(&report, row, printed);
    drop(report);
    is_right
}

/// The same over a fresh volume.
pub fn ends(rt: &impl Abort, alloc: Global, row: &Row<'_>, printed: &[u8]) -> bool {
    ends_on(rt, alloc, row, printed, fresh(rt, alloc))
}

/// The first row of a run that doesn't end as it says, or doesn't print exactly this.
fn wrong_end(rt: &impl Abort, alloc: Global, rows: &[Row<'_>], printed: &[u8]) -> Option<usize> {
    for (i, row) in rows.iter().enumerate() {
        if !ends(rt, alloc, row, printed) {
            return Some(i);
        }
    }
    None
}

#[test]
fn runs_by_fuel(rt: HostRuntime) {
    // The line is written by the fifth unit.
    let before: [Row<'_>; 2] = [
        (&HI, 0, Outcome::OutOfFuel, 0),
        (&HI, 4, Outcome::OutOfFuel, 4),
    ];
    let after: [Row<'_>; 3] = [
        (&HI, 5, Outcome::OutOfFuel, 5),
        (&HI, 7, Outcome::OutOfFuel, 7),
        (&HI, 8, Outcome::Exited(0), 8),
    ];
    assert_none(&rt, wrong_end(&rt, rt.alloc(), &before, b""));
    assert_none(&rt, wrong_end(&rt, rt.alloc(), &after, b"hi\n"));
}

/// Units by which a session is resumed, what it stops by, and how many units it has used then.
type Resumed = (u64, Pause, u64);

/// Whether a session that is resumed stops as the row says.
fn resumes_so<D, R, W1, W2>(session: &mut Session<'_, '_, '_, D, R, W1, W2>, row: &Resumed) -> bool
where
    D: Device + Drop,
    R: Inlet + Drop,
    W1: Outlet + Drop,
    W2: Outlet + Drop,
{
    let (units, pause, used) = row;
    let left = u64::MAX - session.used();
    session.resume(left.min(*units)) == *pause && session.used() == *used
}

/// The first row, of those by which the session is resumed in turn, that it doesn't stop as.
fn wrong_pause<D: Device + Drop>(session: &mut Small<'_, D>, rows: &[Resumed]) -> Option<usize> {
    for (i, row) in rows.iter().enumerate() {
        if !resumes_so(session, row) {
            return Some(i);
        }
    }
    None
}

/// What a session wrote. (No session is let go by `drop`, which would be proved for this alone.)
fn output<D: Device + Drop>(session: Small<'_, D>) -> Bounded {
    let Finished {
        volume,
        input: _,
        out,
        err,
    } = session.finish();
    drop(volume);
    drop(err);
    out
}

/// The first wrong row, and whether exactly this was printed at the end.
fn resumed_on<D: Device + Drop>(
    rt: &impl Abort,
    alloc: Global,
    device: D,
    most: usize,
    rows: &[Resumed],
    line: &[u8],
) -> (Option<usize>, bool) {
    let mut session = over(rt, alloc, &HI, device, b"", most).expect(rt, "a session");
    let wrong = wrong_pause(&mut session, rows);
    let out = output(session);
    (wrong, out.held.as_slice() == line)
}

fn assert_session(rt: &impl Abort, alloc: Global, most: usize, rows: &[Resumed], line: &[u8]) {
    let (wrong, is_printed) = resumed_on(rt, alloc, fresh(rt, alloc), most, rows, line);
    assert_none(rt, wrong);
    assert!(rt; is_printed);
}

#[test]
fn resumes(rt: HostRuntime) {
    let called = Pause::Called(HostCall::FdWrite, Errno::SUCCESS);
    let ended = Pause::Ended(Outcome::Exited(0));
    assert_session(
        &rt,
        rt.alloc(),
        100,
        &[
            (0, Pause::Spent, 0),
            (4, Pause::Spent, 4),
            (4, called, 5),
            (3, ended, 8),
            (1, ended, 8),
        ],
        b"hi\n",
    );
    assert_session(
        &rt,
        rt.alloc(),
        100,
        &[(8, called, 5), (3, ended, 8)],
        b"hi\n",
    );
    // Unit by unit.
    assert_session(
        &rt,
        rt.alloc(),
        100,
        &[
            (1, Pause::Spent, 1),
            (0, Pause::Spent, 1),
            (1, Pause::Spent, 2),
            (1, Pause::Spent, 3),
            (1, Pause::Spent, 4),
            (0, Pause::Spent, 4),
            (1, called, 5),
            (1, Pause::Spent, 6),
            (1, Pause::Spent, 7),
            (1, ended, 8),
        ],
        b"hi\n",
    );
    // It goes on where a writer failed.
    assert_session(
        &rt,
        rt.alloc(),
        1,
        &[
            (8, Pause::Called(HostCall::FdWrite, Errno::IO), 5),
            (8, ended, 8),
        ],
        b"h",
    );
}

/// Whether a refusal hands back what `refusal_on` gave.
fn is_back<D: Device>(
    parts: &HostParts<'_, '_, D, &'static [u8], Bounded, Bounded>,
    pages: u32,
) -> bool {
    parts.settings.pages == pages
        && parts.input == b"in".as_slice()
        && parts.out.most == 2
        && parts.err.most == 3
        && parts.volume.stats().slots == 16
}

/// A module, the most pages, the other settings, and why a session of them is refused.
type Refusing<'a> = (
    &'a [u8],
    u32,
    &'static Settings<'static, 'static>,
    Option<SessionFault>,
);

/// What a refusal says where it hands all back.
fn told<D: Device + Drop>(refused: NoSession<'_, D>, pages: u32) -> Option<SessionFault> {
    let fault = is_back(&refused.parts, pages).then_some(refused.fault);
    drop(refused);
    fault
}

/// Why a session of this over the volume on a device is refused; else, or where not all is handed back, `None`.
fn refusal_on<D: Device + Drop>(
    rt: &impl Abort,
    alloc: Global,
    row: &Refusing<'_>,
    device: D,
) -> Option<SessionFault> {
    let volume = mounted(alloc, device).expect(rt, "a volume");
    let valid = valid_of(rt, alloc, row.0);
    let settings = Settings {
        pages: row.1,
        ..*row.2
    };
    let out = Bounded::new(alloc, 1, 2, None);
    let err = Bounded::new(alloc, 1, 3, None);
    match made(alloc, valid, &settings, volume, b"in", out, err) {
        Ok(session) => {
            drop(output(session));
            None
        }
        Err(refused) => told(refused, row.1),
    }
}

/// The same over a fresh volume.
fn refusal(rt: &impl Abort, alloc: Global, row: &Refusing<'_>) -> Option<SessionFault> {
    refusal_on(rt, alloc, row, fresh(rt, alloc))
}

/// The first row of a session that isn't refused as it says.
fn wrong_refusal(rt: &impl Abort, alloc: Global, rows: &[Refusing<'_>]) -> Option<usize> {
    for (i, row) in rows.iter().enumerate() {
        if refusal(rt, alloc, row) != row.3 {
            return Some(i);
        }
    }
    None
}

/// `HELLO` with data that begin at address 2 ^ 32 - 1.
fn far() -> [u8; 168] {
    let mut module = HELLO;
    module[154] = 0x7F;
    module
}

/// The same with an import whose module is wasi_snapshot_preview2.
fn other() -> [u8; 168] {
    let mut module = far();
    module[51] = b'2';
    module
}

/// The first row of a session that isn't refused as it says, of the module `far`, of `other` and of some more.
fn wrong_order<'a>(
    rt: &impl Abort,
    alloc: Global,
    far: &'a [u8],
    other: &'a [u8],
) -> Option<usize> {
    let start = SessionFault::Instance(InstanceFault::NoStart);
    let import = SessionFault::Instance(InstanceFault::Import);
    let limit = SessionFault::Instance(InstanceFault::PageLimit);
    let data = SessionFault::Instance(InstanceFault::DataOutOfBounds);
    let none = SessionFault::Preopen;
    let setting = SessionFault::Setting;
    let rows: [Refusing<'_>; 10] = [
        (NOTHING, 0, &PLAIN, Some(start)),
        (NOTHING, 65_537, &PLAIN, Some(setting)),
        (&HI, 1, &PLAIN, None),
        (&HI, 0, &PLAIN, Some(limit)),
        (far, 1, &PLAIN, Some(data)),
        (far, 0, &PLAIN, Some(limit)),
        (other, 0, &PLAIN, Some(import)),
        (other, 65_537, &MISSING, Some(setting)),
        // its directory is asked for last
        (other, 0, &MISSING, Some(import)),
        (&HI, 1, &MISSING, Some(none)),
    ];
    wrong_refusal(rt, alloc, &rows)
}

#[test]
fn refuses_in_order(rt: HostRuntime) {
    assert_none(&rt, wrong_order(&rt, rt.alloc(), &far(), &other()));
}

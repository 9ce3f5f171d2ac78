//! What a host in C is told, as numbers.

ghost use Rattle.std.specs.Prelude.{◌≡◌, ◌≢◌};
ghost use Rattle.sandbox_host.specs.Numbers.{why_of, session_fault, session_number, volume_number};
ghost use Rattle.sandbox_host.specs.Numbers.{call_number, misuse_number, not_fed_number, told_end, told_event, told_fed_event, told_pause};

use fed_session::{FedEvent, NotFed};
use plugin_session::Misuse;
use sandbox_core::{HostCall, LoadFault, Outcome, Pause, SessionFault};
use sandbox_report::{Fault, outcome_number, trap_number};
use vol_sector::VolumeFault;
use wasm_interp::Event;

/// The call did what it was asked.
pub const OK: u32 = 0;

/// A setting can't be.
pub(crate) const SETTING: u32 = 15;

/// The volume's device fails or has failed.
pub const DEVICE_FAILED: u32 = 33;

/// A number of sectors or slots is out of its range.
pub const GEOMETRY: u32 = 36;

/// Memory was refused.
pub const OUT_OF_MEMORY: u32 = 40;

/// What the call works on isn't there, or is there already, or is in another state.
pub const MISUSE: u32 = 100;

/// It was said that no more bytes of the input come.
pub const ENDED: u32 = 111;

/// The version: 1,000,000 times the major number, 1,000 times the minor one, and the patch.
pub const VERSION: u32 = meanings::VERSION_NUMBER;

/// Why a module is refused: 1 to 12 with the byte's offset, or 40.
#[repr(C)]
#[derive(Clone, Copy, PartialEq, Eq)]
pub struct Why {
    pub fault: u32,
    pub offset: u32,
}

/// Why a session or an instance came back.
#[repr(C)]
#[derive(Clone, Copy, PartialEq, Eq)]
pub struct Told {
    /// 0 its guest exited, 1 it trapped, 2 the fuel is used up, 3 memory was refused; 4 a call was answered, 5 the units are
    /// used up; of an instance also 6 what ran has returned, 7 a function of the host is called, 8 its guest waits for input.
    pub kind: u32,
    /// The guest's status, the trap, the call's errno, or how many bytes it waits for; else 0.
    pub code: u32,
    /// The call that was answered; of a function of the host the import; else 0.
    pub call: u32,
    /// The units of fuel used so far.
    pub used: u64,
}

/// The number and the offset of a module's refusal.
pub(crate) fn why_of(fault: LoadFault) -> Why
    ensures why { result ≡ why_of fault }
    ensures some { result.fault ≢ 0 }
{
    let fault = Fault::Module(fault);
    Why {
        fault: fault.answer(),
        offset: fault.offset().unwrap_or(0),
    }
}

/// The fault of a session's refusal.
fn session_fault(fault: SessionFault) -> Fault
    ensures { result ≡ session_fault fault }
{
    match fault {
        SessionFault::Setting => Fault::Setting,
        SessionFault::Instance(fault) => Fault::Instance(fault),
        SessionFault::Device => Fault::Volume(VolumeFault::Device),
        SessionFault::Preopen => Fault::Preopen,
        SessionFault::Memory => Fault::Memory,
    }
}

/// The number of a session's refusal.
pub(crate) fn session_number(fault: SessionFault) -> u32
    ensures number { result ≡ session_number fault }
    ensures some { result ≢ 0 }
{
    session_fault(fault).answer()
}

/// The number of a volume's refusal.
pub(crate) fn volume_number(fault: VolumeFault) -> u32
    ensures number { result ≡ volume_number fault }
    ensures some { result ≢ 0 }
{
    Fault::Volume(fault).answer()
}

/// The number of a host's call. Hosts have it compiled in, so a number never moves: a call to come has one behind the last.
fn call_number(call: HostCall) -> u32
    ensures { result ≡ call_number call }
{
    match call {
        HostCall::ArgsSizesGet => 0,
        HostCall::ArgsGet => 1,
        HostCall::EnvironSizesGet => 2,
        HostCall::EnvironGet => 3,
        HostCall::ClockResGet => 4,
        HostCall::ClockTimeGet => 5,
        HostCall::RandomGet => 6,
        HostCall::ProcExit => 7,
        HostCall::FdClose => 8,
        HostCall::FdFdstatGet => 9,
        HostCall::FdFilestatGet => 10,
        HostCall::FdFilestatSetSize => 11,
        HostCall::FdPrestatGet => 12,
        HostCall::FdPrestatDirName => 13,
        HostCall::FdRead => 14,
        HostCall::FdPread => 15,
        HostCall::FdWrite => 16,
        HostCall::FdPwrite => 17,
        HostCall::FdSeek => 18,
        HostCall::FdTell => 19,
        HostCall::FdSync => 20,
        HostCall::FdDatasync => 21,
        HostCall::FdReaddir => 22,
        HostCall::PathCreateDirectory => 23,
        HostCall::PathFilestatGet => 24,
        HostCall::PathOpen => 25,
        HostCall::PathRemoveDirectory => 26,
        HostCall::PathRename => 27,
        HostCall::PathUnlinkFile => 28,
        HostCall::Nosys => 29,
    }
}

/// What is told of an end.
pub(crate) fn told_end(outcome: Outcome, used: u64) -> Told
    ensures { result ≡ told_end outcome used }
{
    let code = match outcome {
        Outcome::Exited(status) => status,
        Outcome::Trapped(trap) => trap_number(trap),
        Outcome::OutOfFuel | Outcome::OutOfMemory => 0,
    };
    Told {
        kind: outcome_number(outcome),
        code,
        call: 0,
        used,
    }
}

/// What is told of a pause.
pub(crate) fn told_pause(pause: Pause, used: u64) -> Told
    ensures { result ≡ told_pause pause used }
{
    match pause {
        Pause::Called(call, errno) => Told {
            kind: 4,
            code: u32::from(errno.0),
            call: call_number(call),
            used,
        },
        Pause::Spent => Told {
            kind: 5,
            code: 0,
            call: 0,
            used,
        },
        Pause::Ended(outcome) => told_end(outcome, used),
    }
}

/// What is told of why an instance came back.
pub(crate) fn told_event(event: Event, used: u64) -> Told
    ensures { result ≡ told_event event used }
{
    match event {
        Event::Returned => Told {
            kind: 6,
            code: 0,
            call: 0,
            used,
        },
        Event::Asked(import) => Told {
            kind: 7,
            code: 0,
            call: import.min(u32::MAX as usize) as u32,
            used,
        },
        Event::Paused(pause) => told_pause(pause, used),
    }
}

/// What is told of why an instance came back whose input may go on.
pub(crate) fn told_fed_event(event: FedEvent, used: u64) -> Told
    ensures { result ≡ told_fed_event event used }
{
    match event {
        FedEvent::Event(event) => told_event(event, used),
        FedEvent::Starved(wanted) => Told {
            kind: 8,
            code: wanted.min(u64::from(u32::MAX)) as u32,
            call: 0,
            used,
        },
    }
}

/// The number of why bytes of the input aren't taken.
pub(crate) fn not_fed_number(refusal: NotFed) -> u32
    ensures number { result ≡ not_fed_number refusal }
    ensures some { result ≢ 0 }
{
    match refusal {
        NotFed::Ended => ENDED,
        NotFed::Memory => OUT_OF_MEMORY,
    }
}

/// The number of a mistake with an instance. Hosts have it compiled in: one to come has the next number.
pub(crate) fn misuse_number(misuse: Misuse) -> u32
    ensures number { result ≡ misuse_number misuse }
    ensures some { result ≢ 0 }
{
    match misuse {
        Misuse::Idle => 102,
        Misuse::AtWork => 103,
        Misuse::Asked => 104,
        Misuse::NotAsked => 105,
        Misuse::Stopped => 106,
        Misuse::Over => 107,
        Misuse::NoFunction => 108,
        Misuse::Mistyped => 109,
        Misuse::PastEnd => 110,
    }
}

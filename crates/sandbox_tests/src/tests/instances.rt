//! An instance whose exported functions are called, and whose import is answered, call after call.

use super::sessions::assert_none;
use plugin_session::{Event, Instance, Misuse, Plugin, Stage};
use sandbox_core::{Outcome, Pause, Settings, Trap, Volume, load};
use std::alloc::Global;
use std::test::Fail;
use vol_sector::MemoryDevice;

/// Imports `env.twice`, of type [i32] -> [i32], and has a page of memory. `_initialize` sets a counter to 40; `add` gives the sum
/// of two numbers; `ask` asks `twice` and adds the number at 8; `fail` traps; `count` counts on and gives the counter.
static GUEST: &[u8] = b"\0asm\x01\0\0\0\
    \x01\x13\x04`\x01\x7f\x01\x7f`\0\0`\x02\x7f\x7f\x01\x7f`\0\x01\x7f\
    \x02\x0d\x01\x03env\x05twice\0\0\
    \x03\x06\x05\x01\x02\0\x01\x03\
    \x05\x03\x01\0\x01\
    \x06\x06\x01\x7f\x01A\0\x0b\
    \x07\x2a\x05\x0b_initialize\0\x01\x03add\0\x02\x03ask\0\x03\x04fail\0\x04\x05count\0\x05\
    \x0a\x2d\x05\x06\0A($\0\x0b\x07\0 \0 \x01j\x0b\x0c\0 \0\x10\0A\x08(\x02\0j\x0b\x03\0\0\x0b\x0b\0#\0A\x01j$\0#\0\x0b";

type Small = Instance<'static, 'static, 'static, MemoryDevice, &'static [u8], Vec<u8>, Vec<u8>>;

fn opened(alloc: Global) -> Option<Small> {
    let valid = load(alloc, GUEST).ok()?;
    let plugin = Plugin::new(alloc, valid, 1).ok()?;
    let device = MemoryDevice::new(alloc, 202, 400).ok()?;
    let Ok(device) = Volume::format(device, 202, 16) else {
        return None;
    };
    let volume = Volume::open(alloc, device).ok()?;
    let (out, err) = (Vec::new(alloc), Vec::new(alloc));
    let plain = Settings {
        args: &[],
        env: &[],
        preopens: &[],
        moment: 0,
        random: b"",
        pages: plugin.pages(),
    };
    Instance::new(alloc, &plugin, plain, volume, b"".as_slice(), out, err).ok()
}

/// A call of the instance.
#[derive(Clone, Copy)]
enum Call {
    Invoke(&'static str, &'static [u64]),
    Go(u64),
    Answer(Option<u64>),
    Write(u32, &'static [u8]),
    Abandon,
}

/// What it gives.
#[derive(Clone, Copy, PartialEq, Eq)]
enum Given {
    Done,
    Returned(Option<u64>),
    Asked(usize, u64),
    Paused(Pause),
    Refused(Misuse),
}

fn given_by(done: Result<(), Misuse>) -> Given {
    match done {
        Ok(()) => Given::Done,
        Err(misuse) => Given::Refused(misuse),
    }
}

/// The first argument of what the embedder is asked.
fn first_argument(instance: &Small) -> u64 {
    match instance.asked() {
        Some(asked) if !asked.arguments.is_empty() => asked.arguments[0],
        _ => 0,
    }
}

fn gone(instance: &mut Small, units: u64) -> Given {
    let left = u64::MAX - instance.used();
    match instance.go(left.min(units)) {
        Ok(Event::Returned) => Given::Returned(instance.result()),
        Ok(Event::Asked(import)) => Given::Asked(import, first_argument(instance)),
        Ok(Event::Paused(pause)) => Given::Paused(pause),
        Err(misuse) => Given::Refused(misuse),
    }
}

fn called(instance: &mut Small, call: &Call) -> Given {
    match call {
        Call::Invoke(name, arguments) => given_by(instance.invoke(name, arguments)),
        Call::Go(units) => gone(instance, *units),
        Call::Answer(value) => given_by(instance.answer(*value)),
        Call::Write(address, bytes) => given_by(instance.write(*address, bytes)),
        Call::Abandon => given_by(instance.abandon()),
    }
}

/// A call, what it gives, and the units used then.
type Row = (Call, Given, u64);

/// The first row that isn't as it says.
fn wrong_call(instance: &mut Small, rows: &[Row]) -> Option<usize> {
    for (i, (call, given, used)) in rows.iter().enumerate() {
        if called(instance, call) != *given || instance.used() != *used {
            return Some(i);
        }
    }
    None
}

const TRAPPED: Pause = Pause::Ended(Outcome::Trapped(Trap::Unreachable));

static ROWS: [Row; 34] = [
    // before the opening has returned nothing else is done
    (
        Call::Invoke("add", &[2, 3]),
        Given::Refused(Misuse::AtWork),
        0,
    ),
    (Call::Write(8, &[1]), Given::Refused(Misuse::AtWork), 0),
    (Call::Go(1), Given::Paused(Pause::Spent), 1),
    (Call::Go(9), Given::Returned(None), 2),
    (Call::Go(9), Given::Refused(Misuse::Idle), 2),
    // a sum
    (
        Call::Invoke("none", &[]),
        Given::Refused(Misuse::NoFunction),
        2,
    ),
    (
        Call::Invoke("add", &[2]),
        Given::Refused(Misuse::Mistyped),
        2,
    ),
    (
        Call::Invoke("add", &[1 << 32, 0]),
        Given::Refused(Misuse::Mistyped),
        2,
    ),
    (Call::Invoke("add", &[2, 3]), Given::Done, 2),
    (
        Call::Invoke("add", &[2, 3]),
        Given::Refused(Misuse::AtWork),
        2,
    ),
    (Call::Go(9), Given::Returned(Some(5)), 5),
    // the embedder is asked
    (Call::Answer(Some(1)), Given::Refused(Misuse::NotAsked), 5),
    (Call::Invoke("ask", &[5]), Given::Done, 5),
    (Call::Go(1), Given::Paused(Pause::Spent), 6),
    (Call::Write(8, &[7]), Given::Refused(Misuse::AtWork), 6),
    (Call::Go(9), Given::Asked(0, 5), 6),
    (Call::Go(9), Given::Refused(Misuse::Asked), 6),
    (Call::Answer(None), Given::Refused(Misuse::Mistyped), 6),
    (Call::Write(8, &[7]), Given::Done, 6),
    (Call::Answer(Some(10)), Given::Done, 7),
    (Call::Go(9), Given::Returned(Some(17)), 10),
    // a trap leaves an instance
    (Call::Invoke("fail", &[]), Given::Done, 10),
    (Call::Go(9), Given::Paused(TRAPPED), 11),
    (Call::Go(9), Given::Refused(Misuse::Idle), 11),
    (Call::Write(8, &[1]), Given::Refused(Misuse::Stopped), 11),
    (Call::Abandon, Given::Done, 11),
    (Call::Write(65_532, &[1, 2, 3, 4]), Given::Done, 11),
    (
        Call::Write(65_533, &[1, 2, 3, 4]),
        Given::Refused(Misuse::PastEnd),
        11,
    ),
    (Call::Invoke("count", &[]), Given::Done, 11),
    (Call::Go(9), Given::Returned(Some(41)), 16),
    // and so does a call that is abandoned
    (Call::Invoke("ask", &[6]), Given::Done, 16),
    (Call::Go(9), Given::Asked(0, 6), 17),
    (Call::Abandon, Given::Done, 17),
    (Call::Go(9), Given::Refused(Misuse::Idle), 17),
];

#[test]
fn answers_call_after_call(rt: HostRuntime) {
    let mut instance = opened(rt.alloc()).expect(&rt, "an instance");
    assert_none(&rt, wrong_call(&mut instance, &ROWS));
    assert!(rt; instance.stage() == Stage::Ready);
    assert!(rt; instance.memory().load_u8(8, 0) == Some(7));
}

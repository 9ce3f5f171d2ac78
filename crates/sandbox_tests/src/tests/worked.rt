//! The worked statement, on a device in memory, which keeps its model.

use super::sessions::{PLAIN, formatted};
use super::writer::Bounded;
use crate::worked::resumed_twice_on;
use sandbox_core::{Errno, HostCall, Outcome, Pause, load};
use wasm_tests::HELLO;

static HI: [u8; 168] = HELLO;

#[test]
fn a_session_in_memory_is_resumed_twice(rt: HostRuntime) {
    let alloc = rt.alloc();
    let device = formatted(alloc).expect(&rt, "a device");
    let valid = load(alloc, &HI).ok().expect(&rt, "a module");
    let input: &'static [u8] = b"";
    let out = Bounded::new(alloc, 100, 100, None);
    let err = Bounded::new(alloc, 100, 100, None);
    let twice = resumed_twice_on(alloc, valid, PLAIN, device, input, out, err, 100).expect(
        &rt,
        "a session",
    );
    assert!(rt; twice.first == Pause::Called(HostCall::FdWrite, Errno::SUCCESS));
    assert!(rt; twice.second == Pause::Ended(Outcome::Exited(0)));
    drop(twice);
}

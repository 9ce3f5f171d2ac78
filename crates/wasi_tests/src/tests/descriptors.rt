//! Descriptors: that calls succeed, and the numbers of rights.

use bitflags::Flags;
use std::process::Abort;
use std::test::Fail;
use vol_tree::Serial;
use wasi_fd::{Descriptor, DescriptorFault, Descriptors, EntryKind, Fd, Opened, Rights, Stream};

// An entry that is open with all rights of a file.
fn file(serial: u32) -> Descriptor<'static> {
    Descriptor::Entry(Opened {
        serial,
        kind: EntryKind::File,
        position: 0,
        append: false,
        base: Rights::file(),
        inheriting: Rights::empty(),
        guest_name: None,
    })
}

// What is done to the descriptors, and what it answers.
enum Act {
    Open(u32, Result<u32, DescriptorFault>),
    Close(u32, Result<(), DescriptorFault>),
    Replace(u32, u32, Result<(), DescriptorFault>),
    Holds(u32, bool),
}

use Act::{Close, Holds, Open, Replace};

fn is_answered(descriptors: &mut Descriptors<'_>, act: &Act) -> bool {
    match act {
        Open(serial, answer) => descriptors.open(file(*serial)).map(Fd::number) == *answer,
        Close(fd, answer) => descriptors.close(Fd::new(*fd)) == *answer,
        Replace(fd, serial, answer) => descriptors.replace(Fd::new(*fd), file(*serial)) == *answer,
        Holds(serial, answer) => descriptors.holds(Serial::new(*serial)) == *answer,
    }
}

fn assert_answers(rt: &impl Abort, descriptors: &mut Descriptors<'_>, acts: &[Act]) {
    for (i, act) in acts.iter().enumerate() {
        assert!(rt; is_answered(descriptors, act), "act {i}");
    }
}

#[test]
fn numbers_are_taken_and_given_back(rt: HostRuntime) -> Result<(), Fail> {
    let mut descriptors = Descriptors::new(rt.alloc())?;
    assert_answers(
        &rt,
        &mut descriptors,
        &[
            Replace(3, 9, Err(DescriptorFault::NotOpen)),
            Close(256, Err(DescriptorFault::NotOpen)),
            Holds(9, false),
            Open(9, Ok(3)),
            Holds(9, true),
            Replace(3, 10, Ok(())),
            Holds(9, false),
            Holds(10, true),
            // streams can be closed
            Close(0, Ok(())),
            Close(0, Err(DescriptorFault::NotOpen)),
            Open(11, Ok(0)),
            Holds(11, true),
        ],
    );
    Ok(())
}

/// Opens all numbers that no stream has.
fn assert_opens(rt: &impl Abort, descriptors: &mut Descriptors<'_>) {
    for n in 3..256 {
        assert!(rt; descriptors.open(file(n)) == Ok(Fd::new(n)));
    }
}

#[test]
fn the_least_number_is_opened_until_all_are_open(rt: HostRuntime) -> Result<(), Fail> {
    let mut descriptors = Descriptors::new(rt.alloc())?;
    assert_opens(&rt, &mut descriptors);
    assert_answers(
        &rt,
        &mut descriptors,
        &[
            Open(256, Err(DescriptorFault::Full)),
            Close(7, Ok(())),
            Open(1_000, Ok(7)),
            Holds(1_000, true),
        ],
    );
    Ok(())
}

#[test]
fn rights_have_their_bits(rt: HostRuntime) {
    let input = Descriptor::Stream(Stream::Input);
    let output = Descriptor::Stream(Stream::Output);
    for (rights, bits) in [
        // bits 1 and 21, bits 6 and 21
        (input.base(), 0x20_0002),
        (output.base(), 0x20_0040),
        (Descriptor::Stream(Stream::Error).base(), 0x20_0040),
        (input.inheriting(), 0),
        (file(9).base(), 0x60_0077),
        (Rights::directory(), 0x62f_6611),
        (Rights::file().union(Rights::directory()), 0x66f_6677),
        (Rights::every(), 0x66f_6677),
        (Rights::all(), 0x66f_6677),
        (Rights::from_bits_truncate(u64::MAX), 0x66f_6677),
    ] {
        assert_eq!(rt; rights.bits(), bits);
    }
}

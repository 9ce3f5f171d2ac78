//! A reader and a writer for all tests, and a guest's standard streams.

use super::guest::Step::{Call, Has, Put};
use super::guest::{PLAIN, Prepared, Step, assert_fed, assert_over, assert_steps, fresh, opened};
use std::alloc::Global;
use std::io;
use std::io::{ErrorKind, Read, Write};
use std::process::Abort;
use stream_answers::{Inlet, Outlet};
use wasi_calls::Terminals;
use wasm_store::HostCall::{FdFdstatGet, FdFilestatGet, FdRead, FdWrite};

/// What a reader does for a while.
#[derive(Clone, Copy)]
pub enum Turn {
    /// Gives these bytes, two at a time.
    Gives(&'static [u8]),
    /// Gives its end, once.
    Ends,
    /// Is interrupted, once.
    Fails,
}

/// Does its turns one after another, and then has ended.
#[derive(Drop)]
pub struct Feeding {
    turns: &'static [Turn],
    bytes: &'static [u8],
}

impl Feeding {
    pub fn new(turns: &'static [Turn]) -> Feeding {
        Feeding { turns, bytes: b"" }
    }
}

impl Read for Feeding {
    fn read(&mut self, buf: &mut [u8]) -> io::Result<usize> {
        if self.bytes.is_empty() {
            let Some((turn, turns)) = self.turns.split_first() else {
                return Ok(0);
            };
            self.turns = turns;
            match turn {
                Turn::Gives(bytes) => self.bytes = bytes,
                Turn::Ends => return Ok(0),
                Turn::Fails => return Err(io::Error::from(ErrorKind::Interrupted)),
            }
        }
        let count = self.bytes.len().min(2).min(buf.len());
        let (given, rest) = self.bytes.split_at(count);
        buf[..count].copy_from_slice(given);
        self.bytes = rest;
        Ok(count)
    }
}

impl Inlet for Feeding {
    ghost gave = { λ before bytes after. Unit {0} };

    ghost refused = { λ before after. Unit {0} };

    fn try_read(&mut self, buf: &mut [u8]) -> io::Result<usize> {
        self.read(buf)
    }
}

/// How a writer refuses a write.
#[derive(Clone, Copy)]
pub enum Refusal {
    TakesNone,
    Interrupted,
}

/// Takes one byte at a time. It refuses one write, that after this many bytes, and would go on.
#[derive(Drop)]
pub struct Taking {
    pub held: Vec<u8>,
    most: usize,
    refusal: Option<Refusal>,
}

impl Taking {
    pub fn new(alloc: Global, most: usize, refusal: Refusal) -> Taking {
        Taking {
            held: Vec::new(alloc),
            most,
            refusal: Some(refusal),
        }
    }

    /// Takes all.
    pub fn all(alloc: Global) -> Taking {
        Taking {
            held: Vec::new(alloc),
            most: 0,
            refusal: None,
        }
    }
}

impl Write for Taking {
    fn write(&mut self, buf: &[u8]) -> io::Result<usize> {
        if self.held.len() == self.most {
            match self.refusal.take() {
                Some(Refusal::TakesNone) => return Ok(0),
                Some(Refusal::Interrupted) => {
                    return Err(io::Error::from(ErrorKind::Interrupted));
                }
                None => {}
            }
        }
        let count = buf.len().min(1);
        self.held.extend_from_slice(&buf[..count])?;
        Ok(count)
    }

    fn flush(&mut self) -> io::Result<()> {
        Ok(())
    }
}

impl Outlet for Taking {
    ghost took = { λ before bytes after. Unit {0} };

    ghost refused = { λ before after. Unit {0} };

    ghost flushed = { λ before after. Unit {0} };

    ghost refuses = { λ before after. Unit {0} };

    fn try_write(&mut self, buf: &[u8]) -> io::Result<usize> {
        self.write(buf)
    }

    fn try_flush(&mut self) -> bool {
        self.flush().is_ok()
    }
}

/// A buffer of three bytes at 300, and one of none and one of one at 320.
const BUFFERS: &[u8] = b"\x2C\x01\0\0\x03\0\0\0\x40\x01\0\0\0\0\0\0\x40\x01\0\0\x01\0\0\0";

/// Four bytes, and after the end more.
const ENDS: &[Turn] = &[Turn::Gives(b"abcd"), Turn::Ends, Turn::Gives(b"efgh")];

#[test]
fn input_is_read_to_its_end(rt: HostRuntime) {
    assert_fed(
        &rt,
        rt.alloc(),
        PLAIN,
        Feeding::new(ENDS),
        &[
            Put(200, BUFFERS),
            Call(FdRead, &[0, 200, 1, 228], 0),
            Has(228, b"\x03\0\0\0"),
            Has(300, b"abc"),
            Call(FdRead, &[0, 200, 3, 228], 0),
            Has(228, b"\x01\0\0\0"),
            Has(300, b"dbc"),
            Call(FdRead, &[0, 200, 3, 228], 0),
            Has(228, b"\0\0\0\0"),
            Call(FdWrite, &[0, 200, 3, 228], 76),
        ],
    );
}

/// Each read gives what the reader has, into the first buffer with room. What isn't a terminal is of no known type.
#[test]
fn interactive_reads_give_what_is_there(rt: HostRuntime) {
    let terminals = Terminals {
        input: true,
        output: false,
        error: true,
    };
    let volume = opened(rt.alloc(), 0).expect(&rt, "no volume");
    assert_over(
        &rt,
        rt.alloc(),
        PLAIN,
        volume,
        Feeding::new(ENDS),
        Prepared::Interactive(terminals),
        &[
            Put(200, BUFFERS),
            Call(FdRead, &[0, 200, 1, 228], 0),
            Has(228, b"\x02\0\0\0"),
            Has(300, b"ab\0"),
            Call(FdRead, &[0, 208, 1, 228], 0),
            Has(228, b"\0\0\0\0"),
            Call(FdRead, &[0, 208, 2, 228], 0),
            Has(228, b"\x01\0\0\0"),
            Has(320, b"c\0"),
            Call(FdRead, &[0, 200, 3, 228], 0),
            Has(228, b"\x01\0\0\0"),
            Has(300, b"db\0"),
            Call(FdRead, &[0, 200, 3, 228], 0),
            Has(228, b"\0\0\0\0"),
            Call(FdRead, &[0, 200, 3, 228], 0),
            Has(228, b"\0\0\0\0"),
            Call(FdFdstatGet, &[0, 400], 0),
            Has(400, b"\x02"),
            Call(FdFdstatGet, &[1, 400], 0),
            Has(400, b"\0"),
            Call(FdFilestatGet, &[1, 400], 0),
            Has(416, b"\0"),
            Call(FdFilestatGet, &[2, 400], 0),
            Has(416, b"\x02"),
        ],
    );
}

/// Reads from an input that fails after some bytes, which stand in memory then.
fn assert_read(rt: &impl Abort, alloc: Global, turns: &'static [Turn], stands: &[u8]) {
    assert_fed(
        rt,
        alloc,
        PLAIN,
        Feeding::new(turns),
        &[
            Put(200, BUFFERS),
            Put(300, b"..."),
            Call(FdRead, &[0, 200, 1, 228], 29),
            Has(228, b"\0\0\0\0"),
            Has(300, stands),
            // ever after, though the reader would go on, and also for no bytes; outputs go on
            Call(FdRead, &[0, 200, 1, 228], 29),
            Has(300, stands),
            Call(FdRead, &[0, 200, 0, 228], 29),
            Call(FdWrite, &[1, 200, 1, 228], 0),
        ],
    );
}

const FAILS_AT_0: &[Turn] = &[Turn::Fails, Turn::Gives(b"abcd")];

const FAILS_AT_1: &[Turn] = &[Turn::Gives(b"a"), Turn::Fails, Turn::Gives(b"bcd")];

const FAILS_AT_2: &[Turn] = &[Turn::Gives(b"ab"), Turn::Fails, Turn::Gives(b"cd")];

#[test]
fn readers_that_fail_once(rt: HostRuntime) {
    assert_read(&rt, rt.alloc(), FAILS_AT_0, b"...");
    assert_read(&rt, rt.alloc(), FAILS_AT_1, b"a..");
    assert_read(&rt, rt.alloc(), FAILS_AT_2, b"ab.");
}

/// Writes four bytes to an output that fails, and to the other.
const WRITES: &[Step<'static>] = &[
    Put(200, BUFFERS),
    Put(300, b"abc"),
    Put(320, b"d"),
    Call(FdWrite, &[1, 200, 3, 228], 29),
    Has(228, b"\0\0\0\0"),
    // ever after, though the writer would go on, and also no bytes
    Call(FdWrite, &[1, 200, 3, 228], 29),
    Call(FdWrite, &[1, 200, 0, 228], 29),
    Call(FdWrite, &[2, 200, 3, 228], 0),
    Has(228, b"\x04\0\0\0"),
];

/// Writes four bytes to an output that refuses a write after this many, and to the other, and asks what the two took.
fn assert_written(rt: &impl Abort, alloc: Global, takes: usize, refusal: Refusal, stands: &[u8]) {
    let out = Taking::new(alloc, takes, refusal);
    let mut guest = fresh(rt, alloc, PLAIN, Feeding::new(&[]), out);
    assert_steps(rt, alloc, &mut guest, WRITES);
    let parts = guest.into_parts();
    assert!(rt; parts.out.held.as_slice() == stands);
    assert!(rt; parts.err.held.as_slice() == b"abcd".as_slice());
    drop(parts);
}

fn assert_refused(rt: &impl Abort, alloc: Global, refusal: Refusal) {
    assert_written(rt, alloc, 0, refusal, b"");
    assert_written(rt, alloc, 1, refusal, b"a");
    assert_written(rt, alloc, 2, refusal, b"ab");
    assert_written(rt, alloc, 3, refusal, b"abc");
}

#[test]
fn writers_that_fail_once(rt: HostRuntime) {
    assert_refused(&rt, rt.alloc(), Refusal::TakesNone);
    assert_refused(&rt, rt.alloc(), Refusal::Interrupted);
}

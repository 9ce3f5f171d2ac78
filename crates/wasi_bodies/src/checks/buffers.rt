//! Buffers of the guest, which a call names by an array of them.

ghost use Rattle.std.specs.Prelude.{◌≡◌, ◌<◌, ◌≤◌, ◌+◌, ◌-◌, ◌*◌, ◌^◌, nat_le, length, true, Ok, Err, OnOk, MatchResult, vec_len, vec_capacity};
ghost use Rattle.std.specs.List.{list_all};
ghost use Rattle.std.specs.Borrow.{sem};
ghost use Rattle.wasm_store.specs.Bytes.{bytes_at};
ghost use Rattle.wasm_store.specs.Lending.{Stays};
ghost use Rattle.wasi_bodies.specs.Checks.{buffers_in, total, is_inside, gathered};
ghost use Rattle.wasi_bodies.specs.internal.checks.Buffers.{pair_of, list_of, fit, EndWithin};

use crate::arguments::{descriptor, word};
use crate::checks::{check_range, check_that};
use vol_tree::MemorySpan;
use wasi_fd::Fd;
use wasm_store::{Errno, Memory};

/// How many buffers a call can name.
pub const MOST_BUFFERS: usize = 1_024;

/// How many bytes of an array stand for a buffer.
const ENTRY_BYTES: u32 = 8;

/// How many bytes all of them have.
pub fn total_len(buffers: &[MemorySpan]) -> u64
    requires { length buffers.now ≤ MOST_BUFFERS }
    ensures { result ≡ total (list_of buffers.now) }
{
    let mut total = 0;
    for buffer in buffers {
        total += u64::from(buffer.len);
    }
    total
}

/// Whether all of them end in this many bytes.
fn end_within(buffers: &[MemorySpan], len: usize) -> bool
    ensures { result ≡ list_all (λ b. nat_le (b.pointer + b.len) len) buffers.now }
{
    buffers.iter().all(|buffer| buffer.pointer as usize + buffer.len as usize <= len)
}

/// Whether all of them lie in memory.
fn are_inside(buffers: &[MemorySpan], memory: &Memory) -> bool
    ensures { result ≡ list_all (is_inside memory.now) (list_of buffers.now) }
{
    end_within(buffers, memory.len())
}

/// Reads an array of buffers of this length and at this address into the room, which has the place.
fn read_array(room: &mut Vec<MemorySpan>, memory: &Memory, iovs: u32, count: u32)
    requires place { MOST_BUFFERS ≤ vec_capacity room.old }
    requires few { count ≤ MOST_BUFFERS }
    requires inside { iovs + 8 * count ≤ length memory.now }
    ensures read { list_of room.new.items ≡ buffers_in count
        (bytes_at memory.now iovs (8 * count)) }
    ensures len { vec_len room.new ≡ count }
    ensures place { vec_capacity room.new ≡ vec_capacity room.old }
{
    room.clear();
    for index in 0..count {
        let at = ENTRY_BYTES * index;
        let Some(pointer) = memory.load_u32(iovs, at) else {
            unreachable!()
        };
        let Some(len) = memory.load_u32(iovs, at + 4) else {
            unreachable!()
        };
        room.push_reserved(MemorySpan { pointer, len });
    }
}

/// The highest end that one of the buffers has, or 0 where there is none.
fn highest_end(buffers: &[MemorySpan]) -> usize
    ensures { EndWithin result buffers.now }
{
    let mut highest = 0;
    for buffer in buffers {
        highest = highest.max(buffer.pointer as usize + buffer.len as usize);
    }
    highest
}

/// The first part of memory, which has all of the buffers, to be read.
pub fn lend_buffers<'m>(memory: &'m mut Memory, buffers: &[MemorySpan]) -> &'m [u8]
    requires { list_all (is_inside memory.old) (list_of buffers.now) ≡ true }
    ensures* same { sem 𝓛 (Stays memory.entry) }
    ensures inside { list_all (is_inside result.now) (list_of buffers.now) ≡ true }
    ensures bytes { gathered result.now (list_of buffers.now)
        ≡ gathered memory.old (list_of buffers.now) }
{
    memory.first_part(highest_end(buffers))
}

/// Whether the buffers have few enough bytes and lie in memory.
#[tactic(auto, using(crate::proofs::checks::Chains::goes_on, crate::proofs::checks::Chains::stops))]
fn check_buffers(buffers: &[MemorySpan], memory: &Memory) -> Result<(), Errno>
    requires { length buffers.now ≤ MOST_BUFFERS }
    ensures fit { MatchResult result (λ _. fit memory.now (list_of buffers.now) ≡ Ok
        (list_of buffers.now)) (λ e. fit memory.now (list_of buffers.now) ≡ Err e.0) }
    ensures small { OnOk result (total (list_of buffers.now) < 2 ^ 32) }
    ensures inside { OnOk result (list_all (is_inside memory.now) (list_of buffers.now) ≡ true) }
{
    check_that(total_len(buffers) < 1 << 32, Errno::INVAL)?;
    match check_that(are_inside(buffers, memory), Errno::FAULT) {
        Ok(()) => Ok(()),
        Err(errno) => Err(errno),
    }
}

/// What a call on buffers is asked: a descriptor, an array of this many buffers, and where its result is to stand.
#[derive(Clone, Copy)]
pub struct Request {
    pub fd: Fd,
    pub iovs: u32,
    pub count: u32,
    pub result_at: u32,
}

impl Request {
    ghost use Rattle.wasi_bodies.specs.Calls.{word};
    ghost use Rattle.wasi_bodies.specs.internal.checks.Buffers.{list_of, usable, AreUsable};

    /// What the arguments ask, of which this one says where the result is to stand.
    pub fn new(arguments: &[u64], result_index: usize) -> Request
        ensures fd { result.fd ≡ word arguments.now 0 }
        ensures iovs { result.iovs ≡ word arguments.now 1 }
        ensures count { result.count ≡ word arguments.now 2 }
        ensures result_at { result.result_at ≡ word arguments.now result_index }
    {
        Request {
            fd: descriptor(arguments, 0),
            iovs: word(arguments, 1),
            count: word(arguments, 2),
            result_at: word(arguments, result_index),
        }
    }

    /// Reads the buffers into the room, where all of them and the place of the result lie in memory. It takes no memory: the room
    /// has the place for as many as a call can name.
    #[tactic(auto, using(crate::proofs::checks::Chains::goes_on, crate::proofs::checks::Chains::stops))]
    pub fn find_buffers(&self, room: &mut Vec<MemorySpan>, memory: &Memory) -> Result<(), Errno>
        requires { MOST_BUFFERS ≤ vec_capacity room.old }
        ensures found { MatchResult result (λ _. usable memory.now self.now.iovs self.now.count
            self.now.result_at ≡ Ok (list_of room.new.items))
            (λ e. usable memory.now self.now.iovs self.now.count self.now.result_at ≡ Err e.0) }
        ensures usable { OnOk result (AreUsable memory.now (list_of room.new.items)
            self.now.result_at) }
        ensures few { OnOk result (vec_len room.new ≤ MOST_BUFFERS) }
        ensures place { MOST_BUFFERS ≤ vec_capacity room.new }
    {
        if let Err(errno) = check_that(self.count as usize <= MOST_BUFFERS, Errno::INVAL) {
            return Err(errno);
        }
        if let Err(errno) = check_range(memory, self.iovs, ENTRY_BYTES * self.count) {
            return Err(errno);
        }
        read_array(room, memory, self.iovs, self.count);
        if let Err(errno) = check_buffers(room.as_slice(), memory) {
            return Err(errno);
        }
        match check_range(memory, self.result_at, 4) {
            Ok(()) => Ok(()),
            Err(errno) => Err(errno),
        }
    }
}

//! Bytes that a call reads from a stream.

ghost use Rattle.std.specs.Prelude.{◌≡◌, ◌<◌, ◌≤◌, ◌+◌, ◌^◌, length, take, min, [], true, false, Ok, Err, OnOk, OnErr, IfOk, IfErr, MatchOption, is_err, vec_len, vec_capacity};
ghost use Rattle.std.specs.List.{list_all};
ghost use Rattle.std.specs.Io.KnownBytes.{Consumes, IsAtEnd};
ghost use Rattle.wasm_store.specs.Bytes.{written};
ghost use Rattle.wasi_bodies.specs.World.{least_read};
ghost use Rattle.wasi_bodies.specs.Checks.{is_inside, total};
ghost use Rattle.wasi_bodies.specs.internal.checks.Buffers.{list_of, AreUsable};
ghost use Rattle.wasi_bodies.specs.internal.streams.Inputs.{Came, SomeCame, Dealt, SomeDealt, Broke, IsRead, IsFirstWithRoom};
ghost use Rattle.wasi_bodies.specs.declared.checks.buffers.TheConstants.{MOST_BUFFERS};
ghost use Rattle.stream_answers.specs.Hearing.{Hears, Moves};

use crate::checks::write_bytes;
use crate::numbers::le32;
use crate::streams::Input;
use stream_answers::Inlet;
use vol_tree::MemorySpan;
use wasm_store::{Errno, Memory};

/// How many bytes a call takes from the input at once. They come into a piece of our own, and from there into memory, since no
/// contract says what a reader leaves after its count.
pub const INPUT_PIECE: usize = 16_384;

/// A reader has failed.
#[derive(Clone, Copy)]
struct ReaderFailed;

/// Gives the piece all of its bytes, for which it has the place: zeros at the first call that reads, and none where it has them.
pub fn fill_up(piece: &mut Vec<u8>)
    requires { INPUT_PIECE ≤ vec_capacity piece.old }
    ensures len { vec_len piece.new ≡ INPUT_PIECE }
    ensures place { INPUT_PIECE ≤ vec_capacity piece.new }
{
    let Ok(()) = piece.resize(INPUT_PIECE, 0) else {
        unreachable!()
    };
}

/// Reads once into the piece, at most this many bytes, and says how many: none only at the reader's end. Any error of the
/// reader counts as failure, an interruption too.
fn read_piece<R: Inlet>(
    reader: &mut R,
    piece: &mut [u8],
    most: usize,
) -> Result<usize, ReaderFailed>
    requires room { 0 < length piece.old }
    requires some { 0 < most }
    ensures few { IfOk result (λ n. (n ≤ most) × (n ≤ length piece.old)) }
    ensures came { IfOk result (λ n. Consumes (R.remaining reader.old) (R.remaining reader.new)
        (take n piece.new)) }
    ensures end { IfOk result (λ n. n ≡ 0 → IsAtEnd (R.remaining reader.new)) }
    ensures broke { OnErr result (Consumes (R.remaining reader.old) (R.remaining reader.new) []) }
    ensures heard { Hears (Moves R.gave) R.refused (is_err result) reader.old reader.new }
{
    let room = most.min(piece.len());
    match reader.try_read(&mut piece[..room]) {
        Ok(count) => Ok(count),
        Err(_) => Err(ReaderFailed),
    }
}

/// Writes the bytes into memory, from a place on.
fn put_at(memory: &mut Memory, place: usize, bytes: &[u8])
    requires { place + length bytes.now ≤ length memory.old }
    ensures bytes { memory.new ≡ written memory.old place bytes.now }
    ensures length { length memory.new ≡ length memory.old }
{
    let (part, _) = memory
        .part_mut(place, bytes.len())
        .split_at_mut(bytes.len());
    part.copy_from_slice(bytes);
}

/// Reads once into memory from a place on, at most this many bytes, and says how many: none only at the reader's end.
fn read_some<R: Inlet>(
    reader: &mut R,
    piece: &mut [u8],
    memory: &mut Memory,
    place: usize,
    most: usize,
) -> Result<usize, ReaderFailed>
    requires room { 0 < length piece.old }
    requires some { 0 < most }
    requires inside { place + most ≤ length memory.old }
    ensures long { length memory.new ≡ length memory.old }
    ensures came { IfOk result (λ n. Came (R.remaining reader.old) (R.remaining reader.new)
        memory.old place most memory.new n) }
    ensures end { IfOk result (λ n. n ≡ 0 → IsAtEnd (R.remaining reader.new)) }
    ensures broke { OnErr result (Consumes (R.remaining reader.old) (R.remaining reader.new) []) }
    ensures kept { OnErr result (memory.new ≡ memory.old) }
    ensures heard { Hears (Moves R.gave) R.refused (is_err result) reader.old reader.new }
{
    match read_piece(reader, piece, most) {
        Ok(count) => {
            put_at(memory, place, &piece[..count]);
            Ok(count)
        }
        Err(failed) => Err(failed),
    }
}

/// Reads into memory from a place on until this many bytes came or the input ends, which it marks, and says how many came. After
/// a failure what came before stands in memory, uncounted. The reader's failure is marked by `read_stream`, not here.
fn fill<R: Inlet>(
    input: &mut Input<R>,
    piece: &mut [u8],
    memory: &mut Memory,
    start: usize,
    len: usize,
) -> Result<usize, ReaderFailed>
    // `room` to `goes_on` are asked for. An `Ok` has the bytes that `came`, and how many they are (`full`, `short`); an `Err`
    // leaves the input open (`still`) and what came by then (`broke`); either way the memory keeps its length (`long`), a marked
    // end is the reader's (`end`), and the mark of failure is as it was (`mark`).
    requires room { 0 < length piece.old }
    requires small { start + len < 2 ^ 64 }
    requires inside { start + len ≤ length memory.old }
    requires goes_on { input.old.ended ≡ false }
    ensures long { length memory.new ≡ length memory.old }
    ensures came { IfOk result (λ n. Came (R.remaining input.old.reader)
        (R.remaining input.new.reader) memory.old start len memory.new n) }
    ensures full { IfOk result (λ n. input.new.ended ≡ false → n ≡ len) }
    ensures short { IfOk result (λ n. input.new.ended ≡ true → n < len) }
    ensures still { OnErr result (input.new.ended ≡ false) }
    ensures end { input.new.ended ≡ true → IsAtEnd (R.remaining input.new.reader) }
    ensures broke { OnErr result (SomeCame (R.remaining input.old.reader)
        (R.remaining input.new.reader) memory.old start len memory.new) }
    ensures mark { input.new.failed ≡ input.old.failed }
    ensures heard { Hears (Moves R.gave) R.refused (is_err result) input.old.reader
        input.new.reader }
{
    let mut filled: usize = 0;
    while filled < len {
        let reader = &mut input.reader;
        match read_some(reader, piece, memory, start + filled, len - filled) {
            Ok(0) => {
                input.ended = true;
                return Ok(filled);
            }
            Ok(count) => filled += count,
            Err(failed) => return Err(failed),
        }
    }
    Ok(filled)
}

/// Reads into a buffer until it is full or the input ends, and says how many bytes came: none after the end.
fn fill_next<R: Inlet>(
    input: &mut Input<R>,
    piece: &mut [u8],
    memory: &mut Memory,
    buffer: MemorySpan,
) -> Result<usize, ReaderFailed>
    // The groups of `fill`, with how many bytes there may be (`small`) and `none` after the end.
    requires room { 0 < length piece.old }
    requires inside { buffer.pointer + buffer.len ≤ length memory.old }
    requires end { input.old.ended ≡ true → IsAtEnd (R.remaining input.old.reader) }
    ensures long { length memory.new ≡ length memory.old }
    ensures came { IfOk result (λ n. Came (R.remaining input.old.reader)
        (R.remaining input.new.reader) memory.old buffer.pointer buffer.len memory.new n) }
    ensures full { IfOk result (λ n. input.new.ended ≡ false → n ≡ buffer.len) }
    ensures short { IfOk result (λ n. input.old.ended ≡ false → input.new.ended ≡ true
        → n < buffer.len) }
    ensures still { OnErr result (input.new.ended ≡ false) }
    ensures small { IfOk result (λ n. n < 2 ^ 32) }
    ensures none { input.old.ended ≡ true → (result ≡ Ok 0) × (input.new.ended ≡ true) }
    ensures end { input.new.ended ≡ true → IsAtEnd (R.remaining input.new.reader) }
    ensures broke { OnErr result (SomeCame (R.remaining input.old.reader)
        (R.remaining input.new.reader) memory.old buffer.pointer buffer.len memory.new) }
    ensures mark { input.new.failed ≡ input.old.failed }
    ensures heard { Hears (Moves R.gave) R.refused (is_err result) input.old.reader
        input.new.reader }
{
    if input.ended {
        return Ok(0);
    }
    let (start, len) = (buffer.pointer as usize, buffer.len as usize);
    fill(input, piece, memory, start, len)
}

/// Reads into the buffers, one after another, until they are full or the input ends, and says how many bytes came.
fn fill_buffers<R: Inlet>(
    input: &mut Input<R>,
    piece: &mut [u8],
    memory: &mut Memory,
    buffers: &[MemorySpan],
) -> Result<usize, ReaderFailed>
    // The groups of `fill_next`, for all buffers: asked for (`room` to `end`); of an `Ok` (`dealt`, `full`, `short`, `none`); of an
    // `Err` (`still`, `broke`); of both (`long`, `end`, `mark`).
    requires room { 0 < length piece.old }
    requires few { length buffers.now ≤ MOST_BUFFERS }
    requires inside { list_all (is_inside memory.old) (list_of buffers.now) ≡ true }
    requires end { input.old.ended ≡ true → IsAtEnd (R.remaining input.old.reader) }
    ensures long { length memory.new ≡ length memory.old }
    ensures dealt { IfOk result (λ n. Dealt (R.remaining input.old.reader)
        (R.remaining input.new.reader) memory.old (list_of buffers.now) memory.new n) }
    ensures full { IfOk result (λ n. input.new.ended ≡ false → n ≡ total (list_of buffers.now)) }
    ensures short { IfOk result (λ n. input.old.ended ≡ false → input.new.ended ≡ true
        → n < total (list_of buffers.now)) }
    ensures still { OnErr result (input.new.ended ≡ false) }
    ensures none { input.old.ended ≡ true → (result ≡ Ok 0) × (input.new.ended ≡ true) }
    ensures end { input.new.ended ≡ true → IsAtEnd (R.remaining input.new.reader) }
    ensures broke { OnErr result (SomeDealt (R.remaining input.old.reader)
        (R.remaining input.new.reader) memory.old (list_of buffers.now) memory.new) }
    ensures mark { input.new.failed ≡ input.old.failed }
    ensures heard { Hears (Moves R.gave) R.refused (is_err result) input.old.reader
        input.new.reader }
{
    let mut count: usize = 0;
    for buffer in buffers {
        match fill_next(input, piece, memory, *buffer) {
            Ok(more) => count += more,
            Err(failed) => return Err(failed),
        }
    }
    Ok(count)
}

/// The place of the first buffer that has room.
fn first_with_room(buffers: &[MemorySpan]) -> Option<usize>
    ensures { MatchOption result (total (list_of buffers.now) ≡ 0) (IsFirstWithRoom buffers.now) }
{
    for index in 0..buffers.len() {
        if buffers[index].len > 0 {
            return Some(index);
        }
    }
    None
}

/// Reads once, into the first buffer that has room, and says how many bytes came: none at the input's end, or where there is no
/// room.
fn read_once<R: Inlet>(
    input: &mut Input<R>,
    piece: &mut [u8],
    memory: &mut Memory,
    buffers: &[MemorySpan],
) -> Result<usize, ReaderFailed>
    // The groups of `fill_buffers`: asked for (`room` to `end`); of an `Ok` (`dealt`, `some`, `short`, `none`); of an `Err` (`still`,
    // `broke`); of both (`long`, `end`, `mark`).
    requires room { 0 < length piece.old }
    requires inside { list_all (is_inside memory.old) (list_of buffers.now) ≡ true }
    requires end { input.old.ended ≡ true → IsAtEnd (R.remaining input.old.reader) }
    ensures long { length memory.new ≡ length memory.old }
    ensures dealt { IfOk result (λ n. Dealt (R.remaining input.old.reader)
        (R.remaining input.new.reader) memory.old (list_of buffers.now) memory.new n) }
    ensures some { IfOk result (λ n. input.new.ended ≡ false
        → min (total (list_of buffers.now)) 1 ≤ n) }
    ensures short { IfOk result (λ n. input.old.ended ≡ false → input.new.ended ≡ true
        → n < min (total (list_of buffers.now)) 1) }
    ensures still { OnErr result (input.new.ended ≡ false) }
    ensures none { input.old.ended ≡ true → (result ≡ Ok 0) × (input.new.ended ≡ true) }
    ensures end { input.new.ended ≡ true → IsAtEnd (R.remaining input.new.reader) }
    ensures broke { OnErr result (Dealt (R.remaining input.old.reader)
        (R.remaining input.new.reader) memory.old (list_of buffers.now) memory.new 0) }
    ensures mark { input.new.failed ≡ input.old.failed }
    ensures heard { Hears (Moves R.gave) R.refused (is_err result) input.old.reader
        input.new.reader }
{
    if input.ended {
        return Ok(0);
    }
    let Some(index) = first_with_room(buffers) else {
        return Ok(0);
    };
    let buffer = buffers[index];
    let (start, len) = (buffer.pointer as usize, buffer.len as usize);
    let reader = &mut input.reader;
    match read_some(reader, piece, memory, start, len) {
        Ok(0) => {
            input.ended = true;
            Ok(0)
        }
        Ok(count) => Ok(count),
        Err(failed) => Err(failed),
    }
}

/// Reads into the buffers, and says how many bytes came: where reads are short those of one read, else until the buffers are full or
/// the input ends.
fn read_buffers<R: Inlet>(
    input: &mut Input<R>,
    piece: &mut [u8],
    memory: &mut Memory,
    buffers: &[MemorySpan],
    short: bool,
) -> Result<usize, ReaderFailed>
    // The groups of `fill_buffers`.
    requires room { 0 < length piece.old }
    requires few { length buffers.now ≤ MOST_BUFFERS }
    requires inside { list_all (is_inside memory.old) (list_of buffers.now) ≡ true }
    requires end { input.old.ended ≡ true → IsAtEnd (R.remaining input.old.reader) }
    ensures long { length memory.new ≡ length memory.old }
    ensures dealt { IfOk result (λ n. Dealt (R.remaining input.old.reader)
        (R.remaining input.new.reader) memory.old (list_of buffers.now) memory.new n) }
    ensures full { IfOk result (λ n. input.new.ended ≡ false
        → least_read short (total (list_of buffers.now)) ≤ n) }
    ensures fewer { IfOk result (λ n. input.old.ended ≡ false → input.new.ended ≡ true
        → n < least_read short (total (list_of buffers.now))) }
    ensures still { OnErr result (input.new.ended ≡ false) }
    ensures none { input.old.ended ≡ true → (result ≡ Ok 0) × (input.new.ended ≡ true) }
    ensures end { input.new.ended ≡ true → IsAtEnd (R.remaining input.new.reader) }
    ensures broke { OnErr result (Broke short (R.remaining input.old.reader)
        (R.remaining input.new.reader) memory.old (list_of buffers.now) memory.new) }
    ensures mark { input.new.failed ≡ input.old.failed }
    ensures heard { Hears (Moves R.gave) R.refused (is_err result) input.old.reader
        input.new.reader }
{
    if short {
        read_once(input, piece, memory, buffers)
    } else {
        fill_buffers(input, piece, memory, buffers)
    }
}

/// Reads from a stream into the buffers until they are full or it ends, or once where reads are short, and then writes how many
/// bytes came.
pub fn read_stream<R: Inlet>(
    input: &mut Input<R>,
    piece: &mut [u8],
    memory: &mut Memory,
    buffers: &[MemorySpan],
    result_at: u32,
    short: bool,
) -> Result<(), Errno>
    requires room { 0 < length piece.old }
    requires few { length buffers.now ≤ MOST_BUFFERS }
    requires usable { AreUsable memory.old (list_of buffers.now) result_at }
    requires end { input.old.ended ≡ true → IsAtEnd (R.remaining input.old.reader) }
    ensures idle { input.old.failed ≡ true → (input.new ≡ input.old) × (memory.new ≡ memory.old)
        × (result ≡ Err Errno.IO) }
    ensures took { OnOk result (IsRead short R.remaining input.old input.new memory.old
        (list_of buffers.now) result_at memory.new) }
    ensures broke { OnErr result (input.old.failed ≡ false → (input.new.failed ≡ true)
        × (input.old.ended ≡ false) × (input.new.ended ≡ false)
        × Broke short (R.remaining input.old.reader) (R.remaining input.new.reader) memory.old
        (list_of buffers.now) memory.new) }
    ensures answer { IfErr result (λ e. e.0 ≡ 29) }
    ensures end { input.new.ended ≡ true → IsAtEnd (R.remaining input.new.reader) }
    ensures heard { input.old.failed ≡ false → Hears (Moves R.gave) R.refused input.new.failed
        input.old.reader input.new.reader }
{
    if input.failed {
        return Err(Errno::IO);
    }
    match read_buffers(input, piece, memory, buffers, short) {
        Ok(count) => {
            write_bytes(memory, result_at, &le32(count as u32));
            Ok(())
        }
        Err(ReaderFailed) => {
            input.failed = true;
            Err(Errno::IO)
        }
    }
}

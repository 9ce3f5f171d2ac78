//! Bytes that a call writes to a stream.

ghost use Rattle.std.specs.Prelude.{◌≡◌, ◌≤◌, length, true, false, Ok, Err, OnOk, OnErr, IfErr, is_err};
ghost use Rattle.std.specs.List.{list_all};
ghost use Rattle.std.specs.Io.KnownBytes.{Appends};
ghost use Rattle.byteorder.specs.Endian.{little_bytes};
ghost use Rattle.wasm_store.specs.Bytes.{written};
ghost use Rattle.wasi_bodies.specs.Checks.{is_inside, gathered};
ghost use Rattle.wasi_bodies.specs.internal.checks.Buffers.{list_of, AreUsable};
ghost use Rattle.wasi_bodies.specs.internal.streams.Outputs.{AppendsSome};
ghost use Rattle.wasi_bodies.specs.declared.checks.buffers.TheConstants.{MOST_BUFFERS};
ghost use Rattle.stream_answers.specs.Hearing.{Hears, Moves, Refuses};

use crate::checks::buffers::{lend_buffers, total_len};
use crate::checks::write_bytes;
use crate::numbers::le32;
use crate::streams::Output;
use stream_answers::Outlet;
use vol_tree::MemorySpan;
use wasm_store::{Errno, Memory};

/// A writer has failed.
#[derive(Clone, Copy)]
struct WriterFailed;

/// Hands all of the bytes to a writer. Any error of the writer counts as failure, an interruption too, and so does a
/// write that takes none of them.
#[tactic(auto, using(crate::proofs::streams::WriterBytes::begun, crate::proofs::streams::WriterBytes::begun_all, crate::proofs::streams::WriterBytes::begun_refused, crate::proofs::streams::WriterBytes::begun_stuck))]
fn hand<W: Outlet>(writer: &mut W, bytes: &[u8]) -> Result<(), WriterFailed>
    ensures all { OnOk result (Appends (W.contents writer.old) (W.contents writer.new) bytes.now) }
    ensures some { OnErr result (AppendsSome (W.contents writer.old) (W.contents writer.new)
        bytes.now) }
    ensures heard { Hears (Moves W.took) (Refuses W.took W.refused) (is_err result) writer.old
        writer.new }
{
    let mut rest = bytes;
    while !rest.is_empty() {
        match writer.try_write(rest) {
            Ok(0) => return Err(WriterFailed),
            Ok(taken) => rest = &rest[taken..],
            Err(_) => return Err(WriterFailed),
        }
    }
    Ok(())
}

/// Hands what stands in the buffers to a writer, one after the other.
fn hand_buffers<W: Outlet>(
    writer: &mut W,
    memory: &[u8],
    buffers: &[MemorySpan],
) -> Result<(), WriterFailed>
    requires { list_all (is_inside memory.now) (list_of buffers.now) ≡ true }
    ensures all { OnOk result (Appends (W.contents writer.old) (W.contents writer.new)
        (gathered memory.now (list_of buffers.now))) }
    ensures some { OnErr result (AppendsSome (W.contents writer.old) (W.contents writer.new)
        (gathered memory.now (list_of buffers.now))) }
    ensures heard { Hears (Moves W.took) (Refuses W.took W.refused) (is_err result) writer.old
        writer.new }
{
    for buffer in buffers {
        let start = buffer.pointer as usize;
        let bytes = &memory[start..start + buffer.len as usize];
        if let Err(failed) = hand(writer, bytes) {
            return Err(failed);
        }
    }
    Ok(())
}

/// Writes what stands in the buffers to a stream, and then how many bytes that is.
pub fn write_stream<W: Outlet>(
    output: &mut Output<W>,
    memory: &mut Memory,
    buffers: &[MemorySpan],
    result_at: u32,
) -> Result<(), Errno>
    requires few { length buffers.now ≤ MOST_BUFFERS }
    requires usable { AreUsable memory.old (list_of buffers.now) result_at }
    ensures idle { output.old.failed ≡ true → (output.new ≡ output.old) × (result ≡ Err Errno.IO) }
    ensures took { OnOk result ((output.old.failed ≡ false) × (output.new.failed ≡ false)
        × Appends (W.contents output.old.writer) (W.contents output.new.writer)
        (gathered memory.old (list_of buffers.now))
        × (memory.new ≡ written memory.old result_at
        (little_bytes 4 (length (gathered memory.old (list_of buffers.now)))))) }
    ensures broke { OnErr result (output.old.failed ≡ false → (output.new.failed ≡ true)
        × AppendsSome (W.contents output.old.writer) (W.contents output.new.writer)
        (gathered memory.old (list_of buffers.now))) }
    ensures answer { IfErr result (λ e. (e.0 ≡ 29) × (memory.new ≡ memory.old)) }
    ensures heard { output.old.failed ≡ false → Hears (Moves W.took) (Refuses W.took W.refused)
        output.new.failed output.old.writer output.new.writer }
{
    if output.failed {
        return Err(Errno::IO);
    }
    let len = total_len(buffers) as u32;
    let bytes = lend_buffers(memory, buffers);
    match hand_buffers(&mut output.writer, bytes, buffers) {
        Ok(()) => {
            write_bytes(memory, result_at, &le32(len));
            Ok(())
        }
        Err(WriterFailed) => {
            output.failed = true;
            Err(Errno::IO)
        }
    }
}

//! Streams that are read whole.

ghost use Rattle.std.specs.Prelude.{◌≡◌, ◌<◌, ◌≤◌, ◌++◌, ◌⊎◌, ℕ, List, IfErr, IfOk, OnErr, length, take};
ghost use Rattle.std.specs.IoError.{error_kind};
ghost use Rattle.std.specs.declared.io.ErrorKind.TheVariants.{OutOfMemory};
ghost use Rattle.sandbox_places.specs.Reading.{IsStopped, IsUnread};
ghost use Rattle.stream_answers.specs.Pieces.{AtLast, IsWhole};

use std::alloc::Global;
use std::io;
use std::io::ErrorKind;
use stream_answers::Inlet;

/// The most bytes that are read at once, in memory of the heap.
const PIECE: usize = 16_384;

/// How many bytes of a stream are read at once of which so many are expected: these and one more, so that a short file's piece is
/// short. A stream of which nothing is known, as a pipe, has none expected.
fn piece_len(expected: usize) -> usize
    ensures { (0 < result) × (result ≤ 16384) }
{
    match expected {
        0 => PIECE,
        _ => expected.min(PIECE - 1) + 1,
    }
}

/// Reads once, and again where that is interrupted: how many bytes of the piece came, none only at the end.
fn read_piece<R: Inlet>(input: &mut R, piece: &mut [u8]) -> io::Result<usize>
    ensures few { IfOk result (λ n. n ≤ length piece.new) }
    ensures gave { IfOk result (λ n. AtLast R.gave R.refused input.old (take n piece.new)
        input.new) }
    ensures refused { OnErr result (IsStopped R.refused input.old input.new) }
{
    for _tries in 0..u64::MAX {
        match input.try_read(piece) {
            Ok(count) => return Ok(count),
            Err(error) => {
                if error.kind() != ErrorKind::Interrupted {
                    return Err(error);
                }
            }
        }
    }
    Err(io::Error::from(ErrorKind::Interrupted))
}

/// Reads once, and puts what came behind what is there: how many bytes, none only at the end.
fn read_more<R: Inlet>(input: &mut R, piece: &mut [u8], bytes: &mut Vec<u8>) -> io::Result<usize>
    ensures few { IfOk result (λ n. n ≤ length piece.new) }
    ensures gave { IfOk result (λ n. (more : List ℕ) × (length more ≡ n)
        × AtLast R.gave R.refused input.old more input.new
        × (bytes.new.items ≡ bytes.old.items ++ more)) }
    ensures refused { IfErr result (λ error. (error_kind error ≡ OutOfMemory)
        ⊎ IsStopped R.refused input.old input.new) }
{
    let count = read_piece(input, piece)?;
    bytes.extend_from_slice(&piece[..count])?;
    Ok(count)
}

/// Reads a stream to its end, or this many bytes of it where it has more, into memory for so many as are expected. Where a read is
/// interrupted it is asked again. It fails only where memory or a read is refused.
pub fn read_whole<R: Inlet>(
    alloc: Global,
    input: &mut R,
    most: u64,
    expected: usize,
) -> io::Result<Vec<u8>>
    ensures whole { IfOk result (λ bytes. IsWhole (AtLast R.gave R.refused) most input.old
        bytes.items input.new) }
    ensures refused { IfErr result (IsUnread R.gave R.refused input.old input.new) }
{
    let mut bytes = Vec::with_capacity(alloc, expected)?;
    let at_once = piece_len(expected);
    let mut piece = vec![in alloc; 0; at_once]?;
    let mut left = most;
    while left > 0 {
        let room = left.min(at_once as u64) as usize;
        let count = read_more(input, &mut piece[..room], &mut bytes)?;
        if count == 0 {
            return Ok(bytes);
        }
        left -= count as u64;
    }
    Ok(bytes)
}

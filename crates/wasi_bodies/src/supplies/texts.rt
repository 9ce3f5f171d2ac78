//! Arguments and the environment.

ghost use Rattle.std.specs.Prelude.{◌≡◌, ◌≤◌, ◌<◌, ◌+◌, ◌*◌, ◌^◌, ◌++◌, true, length, take};
ghost use Rattle.wasi_bodies.specs.supplies.Texts.{texts_of, texts_fit, ended_bytes};
ghost use Rattle.wasi_bodies.specs.World.{World};
ghost use Rattle.wasm_store.specs.Bytes.{written};
ghost use Rattle.wasi_bodies.specs.supplies.Rows.{sizes_get as sizes, texts_get as texts_row, ended_bytes as all_bytes, pointers, ended};
ghost use Rattle.wasi_bodies.specs.Calls.{Answers};
ghost use Rattle.wasi_bodies.specs.internal.Entries.{errno_of};

use crate::checks::{check_range, write_bytes};
use crate::numbers::{le32, low32};
use crate::settings::nul_terminated_len;
use wasm_store::{Errno, Memory};

/// `args_sizes_get(count, size)`, `environ_sizes_get(count, size)`: how many texts there are, and how
/// many bytes with a NUL after each.
#[tactic(auto, using(crate::proofs::checks::Chains::goes_on, crate::proofs::checks::Chains::stops))]
pub fn sizes_get(
    texts: &[&[u8]],
    memory: &mut Memory,
    count_at: u32,
    size_at: u32,
) -> Result<(), Errno>
    requires { texts_fit texts.now ≡ true }
    ensures { (w : World) → Answers (sizes (texts_of texts.now) w memory.old count_at size_at) w
        memory.old w memory.new (errno_of result) }
{
    check_range(memory, count_at, 4)?;
    check_range(memory, size_at, 4)?;
    write_bytes(memory, count_at, &le32(texts.len() as u32));
    write_bytes(memory, size_at, &le32(nul_terminated_len(texts) as u32));
    Ok(())
}

/// Writes the bytes into the part, from a place on.
fn append_at(part: &mut [u8], place: usize, bytes: &[u8])
    requires { place + length bytes.now ≤ length part.old }
    ensures { take (place + length bytes.now) part.new ≡ take place part.old ++ bytes.now }
{
    part[place..place + bytes.len()].copy_from_slice(bytes);
}

/// Fills in a pointer to each text, the first of which stands at this place.
fn fill_pointers(part: &mut [u8], texts: &[&[u8]], first: u64)
    requires room { length part.old ≡ 4 * length texts.now }
    requires fits { first + ended_bytes texts.now < 2 ^ 64 }
    ensures { part.new ≡ pointers first (texts_of texts.now) }
{
    let mut place: usize = 0;
    let mut pointer = first;
    for text in texts {
        append_at(part, place, &low32(pointer));
        place += 4;
        pointer += text.len() as u64 + 1;
    }
}

/// Fills in the texts with a NUL after each.
fn fill_texts(part: &mut [u8], texts: &[&[u8]])
    requires { length part.old ≡ ended_bytes texts.now }
    ensures { part.new ≡ ended (texts_of texts.now) }
{
    let mut place: usize = 0;
    for text in texts {
        append_at(part, place, text);
        append_at(part, place + text.len(), &[0]);
        place += text.len() + 1;
    }
}

/// How many bytes the pointers to the texts have.
#[tactic(auto, using(crate::proofs::supplies::TextReferences::few_texts))]
fn pointers_len(texts: &[&[u8]]) -> u32
    requires { texts_fit texts.now ≡ true }
    ensures { result ≡ 4 * length (texts_of texts.now) }
{
    4 * texts.len() as u32
}

/// How many bytes the texts have with a NUL after each.
#[tactic(auto, using(crate::proofs::supplies::TextReferences::fits_ended, crate::proofs::supplies::TextReferences::same_ended))]
fn texts_len(texts: &[&[u8]]) -> u32
    requires { texts_fit texts.now ≡ true }
    ensures { result ≡ all_bytes (texts_of texts.now) }
{
    nul_terminated_len(texts) as u32
}

/// Writes a pointer to each text, the first of which stands at this place.
fn write_pointers(memory: &mut Memory, at: u32, texts: &[&[u8]], first: u32)
    requires fit { texts_fit texts.now ≡ true }
    requires inside { at + 4 * length (texts_of texts.now) ≤ length memory.old }
    ensures bytes { memory.new ≡ written memory.old at (pointers first (texts_of texts.now)) }
    ensures length { length memory.new ≡ length memory.old }
{
    let len = pointers_len(texts) as usize;
    let (part, _) = memory.part_mut(at as usize, len).split_at_mut(len);
    fill_pointers(part, texts, u64::from(first));
}

/// Writes the texts with a NUL after each.
fn write_texts(memory: &mut Memory, at: u32, texts: &[&[u8]])
    requires fit { texts_fit texts.now ≡ true }
    requires inside { at + all_bytes (texts_of texts.now) ≤ length memory.old }
    ensures bytes { memory.new ≡ written memory.old at (ended (texts_of texts.now)) }
{
    let len = texts_len(texts) as usize;
    let (part, _) = memory.part_mut(at as usize, len).split_at_mut(len);
    fill_texts(part, texts);
}

/// `args_get(pointers, buffer)`, `environ_get(pointers, buffer)`: the texts with a NUL after each, one after another, and
/// a pointer to each.
#[tactic(auto, using(crate::proofs::checks::Chains::goes_on, crate::proofs::checks::Chains::stops))]
pub fn texts_get(texts: &[&[u8]], memory: &mut Memory, at: u32, buffer: u32) -> Result<(), Errno>
    requires { texts_fit texts.now ≡ true }
    ensures { (w : World) → Answers (texts_row (texts_of texts.now) w memory.old at buffer) w
        memory.old w memory.new (errno_of result) }
{
    check_range(memory, at, pointers_len(texts))?;
    check_range(memory, buffer, texts_len(texts))?;
    write_pointers(memory, at, texts, buffer);
    write_texts(memory, buffer, texts);
    Ok(())
}

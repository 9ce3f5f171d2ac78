//! Random bytes.

ghost use Rattle.std.specs.Prelude.{◌≡◌, ◌≤◌, ◌+◌, true, length};
ghost use Rattle.wasi_bodies.specs.supplies.Random.{supply, has_left, next_bytes, after_next};
ghost use Rattle.wasi_bodies.specs.World.{World};
ghost use Rattle.wasm_store.specs.Bytes.{written};
ghost use Rattle.wasi_bodies.specs.supplies.Rows.{random_get as random};
ghost use Rattle.wasi_bodies.specs.Calls.{Answers};
ghost use Rattle.wasi_bodies.specs.internal.Entries.{errno_of};

use crate::checks::{check_range, check_that};
use crate::errno::AGAIN;
use rand_chacha::ChaCha20Rng;
use rand_core::Rng;
use wasm_store::{Errno, Memory};

/// Whether so many random bytes are left.
fn is_enough(generator: &Option<ChaCha20Rng>, left: &[u8], len: usize) -> bool
    ensures { result ≡ has_left len (supply generator.now left.now) }
{
    match generator {
        Some(_) => true,
        None => len <= left.len(),
    }
}

/// Fills the part with the next random bytes.
fn fill_random(generator: &mut Option<ChaCha20Rng>, left: &mut &[u8], part: &mut [u8])
    requires { has_left (length part.old) (supply generator.old left.old.now) ≡ true }
    ensures bytes { part.new ≡ next_bytes (length part.old) (supply generator.old left.old.now) }
    ensures moves_on { supply generator.new left.new.now
        ≡ after_next (length part.old) (supply generator.old left.old.now) }
{
    if let Some(generator) = generator {
        generator.fill_bytes(part);
        return;
    }
    let (taken, rest) = left.split_at(part.len());
    part.copy_from_slice(taken);
    *left = rest;
}

/// Writes so many random bytes into memory.
fn write_random(
    generator: &mut Option<ChaCha20Rng>,
    left: &mut &[u8],
    memory: &mut Memory,
    buffer: u32,
    len: u32,
)
    requires inside { buffer + len ≤ length memory.old }
    requires enough { has_left len (supply generator.old left.old.now) ≡ true }
    ensures bytes { memory.new
        ≡ written memory.old buffer (next_bytes len (supply generator.old left.old.now)) }
    ensures moves_on { supply generator.new left.new.now
        ≡ after_next len (supply generator.old left.old.now) }
{
    let len = len as usize;
    let (part, _) = memory.part_mut(buffer as usize, len).split_at_mut(len);
    fill_random(generator, left, part);
}

/// `random_get(buffer, length)`: the next bytes, or none where fewer are left.
#[tactic(auto, using(crate::proofs::checks::Chains::goes_on, crate::proofs::checks::Chains::stops))]
pub fn random_get(
    generator: &mut Option<ChaCha20Rng>,
    left: &mut &[u8],
    memory: &mut Memory,
    buffer: u32,
    len: u32,
) -> Result<(), Errno>
    ensures { (w : World) → w.random ≡ supply generator.old left.old.now
        → Answers (random w memory.old buffer len) w memory.old
        (record w { random = supply generator.new left.new.now }) memory.new (errno_of result) }
{
    check_range(memory, buffer, len)?;
    check_that(is_enough(generator, left, len as usize), AGAIN)?;
    write_random(generator, left, memory, buffer, len);
    Ok(())
}

//! Where the instructions of functions' bodies begin, in tables of those that were asked for.

ghost use Rattle.std.specs.Prelude.{◌≡◌, [], IfOk, IfSome, drop, length, slice_get, slice_set, ℕ};
ghost use Rattle.sandbox_inspect.specs.internal.Bodies.{places_from};
ghost use Rattle.sandbox_inspect.specs.internal.Skipping.{after_locals};

use crate::skipping::{after_instruction, after_locals};
use std::alloc::{AllocError, Global};

/// All tables of a module together have so many instructions at most: 8 bytes for each.
pub(crate) const MOST_PLACES: usize = 524_288;

/// Where so many instructions begin, in bytes from the first, of the body that stands so many bytes from it.
pub(crate) fn instruction_places(
    alloc: Global,
    bytes: &[u8],
    start: usize,
    count: usize,
) -> Result<Vec<usize>, AllocError>
    ensures { IfOk result (λ places. places.items ≡ places_from (length bytes.now) count
        (after_locals (drop start bytes.now))) }
{
    let mut places = Vec::with_capacity(alloc, count)?;
    let mut rest = after_locals(bytes.get(start..).unwrap_or(&[]));
    for _ in 0..count {
        places.push(bytes.len().saturating_sub(rest.len()))?;
        rest = after_instruction(rest);
    }
    Ok(places)
}

/// So many tables that have nothing.
pub(crate) fn no_places(alloc: Global, count: usize) -> Result<Vec<Vec<usize>>, AllocError>
    ensures { IfOk result (λ tables. (own : ℕ) → IfSome (slice_get tables.items own)
        (λ places. places.items ≡ [])) }
{
    let mut tables = Vec::with_capacity(alloc, count)?;
    for _ in 0..count {
        tables.push(Vec::new(alloc))?;
    }
    Ok(tables)
}

/// Puts a table in, in the place of the one of this index.
pub(crate) fn put(tables: &mut Vec<Vec<usize>>, own: usize, places: Vec<usize>)
    ensures { tables.new.items ≡ slice_set tables.old.items own places }
{
    if own < tables.len() {
        tables[own] = places;
    }
}

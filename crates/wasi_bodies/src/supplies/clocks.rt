//! Clocks.

ghost use Rattle.std.specs.Prelude.{◌≡◌, ◌==◌, if◌then◌else◌};
ghost use Rattle.wasi_bodies.specs.World.{World};
ghost use Rattle.wasi_bodies.specs.supplies.Rows.{clock_res_get as resolution, clock_time_get as time};
ghost use Rattle.wasi_bodies.specs.Calls.{Answers};
ghost use Rattle.wasi_bodies.specs.internal.Entries.{errno_of};

use crate::checks::{check_range, check_that, write_bytes};
use crate::numbers::le64;
use wasm_store::{Errno, Memory};

/// The clock of the time of day.
const REALTIME: u32 = 0;

/// The clock that counts the units used.
const MONOTONIC: u32 = 1;

/// What the clock shows.
fn time_of(id: u32, moment: u64, used: u64) -> u64
    ensures { result ≡ (if id == 0 then moment else used) }
{
    if id == REALTIME { moment } else { used }
}

/// `clock_res_get(id, result)`: 1, in nanoseconds or units.
#[tactic(auto, using(crate::proofs::checks::Chains::goes_on, crate::proofs::checks::Chains::stops))]
pub fn clock_res_get(memory: &mut Memory, id: u32, result_at: u32) -> Result<(), Errno>
    ensures { (w : World) → Answers (resolution w memory.old id result_at) w memory.old w memory.new
        (errno_of result) }
{
    check_that(id <= MONOTONIC, Errno::INVAL)?;
    check_range(memory, result_at, 8)?;
    write_bytes(memory, result_at, &le64(1));
    Ok(())
}

/// `clock_time_get(id, precision, result)`: the moment, or the units used, this call's among them.
#[tactic(auto, using(crate::proofs::checks::Chains::goes_on, crate::proofs::checks::Chains::stops))]
pub fn clock_time_get(
    moment: u64,
    memory: &mut Memory,
    used: u64,
    id: u32,
    result_at: u32,
) -> Result<(), Errno>
    ensures { (w : World) → w.given.moment ≡ moment
        → Answers (time w memory.old used id result_at) w memory.old w memory.new
        (errno_of result) }
{
    check_that(id <= MONOTONIC, Errno::INVAL)?;
    check_range(memory, result_at, 8)?;
    write_bytes(memory, result_at, &le64(time_of(id, moment, used)));
    Ok(())
}

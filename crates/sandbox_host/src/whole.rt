//! Whole calls, which keep nothing.

ghost use Rattle.std.specs.Prelude.{◌≡◌, ◌≢◌, ◌⊎◌, length};
ghost use Rattle.vol_sector.specs.Record.{image_of};
ghost use Rattle.vol_tree.specs.Superblock.{HasRanges};
ghost use Rattle.vol_tree.specs.Fresh.{fresh, fresh_as};
ghost use Rattle.vol_tree.specs.Stands.{StandsAs, empty_tree};
ghost use Rattle.wasm_syntax.specs.declared.module.Module.{Module as ModuleValue};
ghost use Rattle.sandbox_host.specs.Sessions.{IsLoaded};
ghost use Rattle.sandbox_host.specs.Refusals.{NotLoaded, NotOpened};
ghost use Rattle.sandbox_host.specs.Whole.{Ran, IsUnformatted};

use crate::numbers::{GEOMETRY, OK, OUT_OF_MEMORY, Told, Why, told_end, volume_number};
use crate::opening::{begin_from, load};
use crate::showing::{show, show_sectors};
use crate::supplies::Supplies;
use crate::volumes::{Origin, most_sectors};
use sandbox_core::{Report, Volume};
use sandbox_device::RecordedDevice;
use std::alloc::Global;
use vol_inode::Version;
use vol_sector::{Refused, Sector};

/// Decodes and validates a module.
pub fn check(alloc: Global, module: &[u8], why: &mut Why) -> u32
    ensures valid { result ≡ 0 → ((m : ModuleValue) × IsLoaded «module».now m)
        × (why.new ≡ why.old) }
    ensures refused { result ≢ 0 → (result ≡ why.new.fault) × NotLoaded «module».now why.new }
{
    match load(alloc, module) {
        Ok(valid) => {
            drop(valid);
            OK
        }
        Err(told) => {
            *why = told;
            told.fault
        }
    }
}

/// Runs a module with this much fuel over a fresh volume, and commits at the end. Says how much the guest has written to
/// descriptor 1, and copies the first of it.
pub fn run(
    alloc: Global,
    module: &[u8],
    supplies: &Supplies<'_>,
    fuel: u64,
    out: &mut [u8],
    out_length: &mut usize,
    ended: &mut Told,
    why: &mut Why,
) -> u32
    ensures ran { result ≡ 0 → Ran «module».now supplies.now fuel ended.new out_length.new out.old
        out.new × (why.new ≡ why.old) }
    ensures refused { result ≢ 0 → NotOpened «module».now supplies.now Origin.Fresh result why.old
        why.new × (out.new ≡ out.old) × (out_length.new ≡ out_length.old)
        × (ended.new ≡ ended.old) }
{
    let session = match begin_from(alloc, module, supplies, Origin::Fresh, why) {
        Ok(session) => session,
        Err(number) => return number,
    };
    let report = sandbox_core::run(session, fuel);
    let written = report.out.bytes.as_slice();
    show(written, out);
    *out_length = written.len();
    *ended = told_end(report.outcome, report.used);
    drop(report);
    OK
}

/// Makes sectors an empty volume, in place: of version 1, with at most 65,536 sectors.
pub fn format(alloc: Global, sectors: &mut [Sector], slots: u32) -> u32
    ensures formatted { result ≡ 0 → StandsAs (image_of sectors.new)
        (fresh (length sectors.old) slots) (empty_tree slots) }
    ensures refused { result ≢ 0 → IsUnformatted (fresh (length sectors.old) slots) result
        × (sectors.new ≡ sectors.old) }
    ensures kept { length sectors.new ≡ length sectors.old }
{
    if sectors.len() > most_sectors(false) {
        return GEOMETRY;
    }
    format_as(alloc, sectors, Version::One, slots)
}

/// Makes sectors an empty volume of version 4, in place: with at most 16,777,216 sectors.
pub fn format_huge(alloc: Global, sectors: &mut [Sector], slots: u32) -> u32
    ensures formatted { result ≡ 0 → StandsAs (image_of sectors.new)
        (fresh_as Version.Four (length sectors.old) slots) (empty_tree slots) }
    ensures refused { result ≢ 0 → IsUnformatted (fresh_as Version.Four (length sectors.old) slots)
        result × (sectors.new ≡ sectors.old) }
    ensures kept { length sectors.new ≡ length sectors.old }
{
    format_as(alloc, sectors, Version::Four, slots)
}

/// Makes sectors an empty volume of this version, in place.
fn format_as(alloc: Global, sectors: &mut [Sector], version: Version, slots: u32) -> u32
    ensures formatted { result ≡ 0 → StandsAs (image_of sectors.new)
        (fresh_as version (length sectors.old) slots) (empty_tree slots) }
    ensures refused { result ≢ 0 → IsUnformatted (fresh_as version (length sectors.old) slots)
        result × (sectors.new ≡ sectors.old) }
    ensures kept { length sectors.new ≡ length sectors.old }
{
    if sectors.len() > most_sectors(true) {
        return GEOMETRY;
    }
    let count = sectors.len() as u32;
    let Ok(device) = RecordedDevice::of(alloc, sectors, false) else {
        return OUT_OF_MEMORY;
    };
    match Volume::format_as(device, version, count, slots) {
        Ok(device) => {
            show_sectors(&device, sectors);
            OK
        }
        Err(Refused { fault, .. }) => volume_number(fault),
    }
}

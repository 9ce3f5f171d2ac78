//! The volume of a run that names none.

ghost use Rattle.std.specs.Prelude.{IfOk, IfErr};
ghost use Rattle.vol_tree.specs.Handing.{device_opened};
ghost use Rattle.vol_commands.specs.Going.{FormatsWithin};
ghost use Rattle.vol_commands.specs.Volumes.{IsFresh, IsFreshRefused};

use std::alloc::Global;
use vol_sector::{Device, Refused};
use vol_tree::Volume;

/// The sectors of the volume of a run that names none.
pub const FRESH_SECTORS: u32 = 202;

/// The slots for entries of that volume.
const FRESH_SLOTS: u32 = 16;

/// Makes a device an empty volume of 202 sectors and 16 slots, and opens it. A refusal hands the
/// device back.
pub fn open_fresh<D: Device>(alloc: Global, device: D) -> Result<Volume<D>, Refused<D>>
    ensures opens { IfOk result (IsFresh D.honest D.disk D.size D.failures device) }
    ensures refused { IfErr result (IsFreshRefused D.honest D.disk D.size D.failures device) }
    ensures goes_on { FormatsWithin D.honest D.size D.goes_on FRESH_SECTORS device
        (device_opened result) }
{
    match Volume::format(device, FRESH_SECTORS, FRESH_SLOTS) {
        Ok(device) => Volume::open(alloc, device),
        Err(refused) => Err(refused),
    }
}

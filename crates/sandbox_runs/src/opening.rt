//! The volume of a run.

ghost use Rattle.std.specs.Prelude.{IfOk, IfErr};
ghost use Rattle.vol_tree.specs.Handing.{device_opened};
ghost use Rattle.vol_commands.specs.Going.{OpensWithin};
ghost use Rattle.vol_commands.specs.Volumes.{IsOpenFor, IsRefusedFor};

use std::alloc::Global;
use vol_commands::{FRESH_SECTORS, open_fresh};
use vol_sector::{Device, Refused};
use vol_tree::Volume;

/// Opens the volume of a run: that of its file, which is the device, or an empty one that the device
/// is made where the run names no file. A refusal hands the device back.
pub(crate) fn open_for_run<D: Device>(
    alloc: Global,
    file: Option<&str>,
    device: D,
) -> Result<Volume<D>, Refused<D>>
    ensures opens { IfOk result (IsOpenFor D.honest D.disk D.size D.failures file.entry device) }
    ensures refused { IfErr result (IsRefusedFor D.honest D.disk D.size D.failures file.entry
        device) }
    ensures goes_on { OpensWithin D.honest D.disk D.size D.goes_on FRESH_SECTORS file.entry device
        (device_opened result) }
{
    match file {
        Some(_) => Volume::open(alloc, device),
        None => open_fresh(alloc, device),
    }
}

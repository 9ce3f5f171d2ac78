//! Making a device an empty volume.

ghost use Rattle.std.specs.Prelude.{◌↔◌, ℕ, IfOk, IsTrue, is_err};
ghost use Rattle.vol_sector.specs.Past.{StillGoesOn};
ghost use Rattle.vol_commands.specs.Formatting.{BeginsAsVolume, Formats, FormatsNew, FormatsWhere, LooksAt};
ghost use Rattle.vol_commands.specs.Going.{FormatsWithin};

use crate::failure::Failure;
use vol_inode::Version;
use vol_sector::{Device, DeviceFault, Refused, VolumeFault};
use vol_tree::{Errno, Volume};

/// The bytes that a volume begins with.
pub const MAGIC: [u8; 8] = *b"WASMVOLU";

/// Makes the first sectors of a device an empty volume of this version, with these numbers of sectors and of slots for
/// entries, and gives the device back.
pub fn format_as<D: Device>(
    device: D,
    version: Version,
    sectors: u32,
    slots: u32,
) -> (Result<(), Failure>, D)
    ensures formats { Formats version D.honest D.disk D.size D.failures device sectors slots
        result.1 result.0 }
    ensures goes_on { FormatsWithin D.honest D.size D.goes_on sectors device result.1 }
{
    match Volume::format_as(device, version, sectors, slots) {
        Ok(device) => (Ok(()), device),
        Err(Refused { fault, device }) => (Err(Failure::Volume(fault)), device),
    }
}

/// Whether a device begins as a volume does, of whatever version; one without a sector doesn't.
fn begins_as_volume<D: Device>(device: &mut D) -> Result<bool, DeviceFault>
    ensures looks { LooksAt D.honest D.disk D.size D.failures device.old device.new
        (is_err result) }
    ensures goes_on { (end : ℕ) → StillGoesOn (D.goes_on end) device.old device.new }
    ensures begins { D.honest device.old → IfOk result
        (λ b. IsTrue b ↔ BeginsAsVolume (D.size device.old) (D.disk device.old).seen) }
{
    if device.sectors() == 0 {
        return Ok(false);
    }
    let image = device.read(0)?;
    Ok(&image[..8] == MAGIC.as_slice())
}

/// Makes a device an empty volume as `format_as` does, but refuses it with errno 20 where it begins
/// as a volume does, and then leaves it as it was.
fn format_new<D: Device>(
    mut device: D,
    version: Version,
    sectors: u32,
    slots: u32,
) -> (Result<(), Failure>, D)
    ensures formats { FormatsNew D.honest D.disk D.size D.failures version device sectors slots
        result.1 result.0 }
    ensures goes_on { FormatsWithin D.honest D.size D.goes_on sectors device result.1 }
{
    match begins_as_volume(&mut device) {
        Ok(false) => format_as(device, version, sectors, slots),
        Ok(true) => (Err(Failure::Tree(Errno::Exist)), device),
        Err(_) => (Err(Failure::Volume(VolumeFault::Device)), device),
    }
}

/// Formats a device as `format_as` does; where it is to be new, as `format_new` does: one that begins
/// as a volume is refused with errno 20.
pub fn format_where<D: Device>(
    device: D,
    version: Version,
    sectors: u32,
    slots: u32,
    only_new: bool,
) -> (Result<(), Failure>, D)
    ensures formats { FormatsWhere only_new version D.honest D.disk D.size D.failures device sectors
        slots result.1 result.0 }
    ensures goes_on { FormatsWithin D.honest D.size D.goes_on sectors device result.1 }
{
    if only_new {
        format_new(device, version, sectors, slots)
    } else {
        format_as(device, version, sectors, slots)
    }
}

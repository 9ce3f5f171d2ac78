//! The volume of a guest.

ghost use Rattle.std.specs.Prelude.{◌≡◌, ◌≤◌, IfOk, IfErr};
ghost use Rattle.sandbox_host.specs.Volumes.{IsVolume, RefusesVolume, most_sectors};

use sandbox_core::Volume;
use sandbox_device::RecordedDevice;
use std::alloc::Global;
use vol_sector::{Refused, Sector, VolumeFault};

/// The sectors of a fresh volume.
const FRESH_SECTORS: u32 = 202;

/// The slots for entries of a fresh volume.
const FRESH_SLOTS: u32 = 16;

/// The sectors that a host may hand in, for a volume that is huge or not.
pub(crate) fn most_sectors(is_huge: bool) -> usize
    ensures most { result ≡ most_sectors is_huge }
    ensures within { result ≤ 16777216 }
{
    if is_huge { 16_777_216 } else { 65_536 }
}

/// The volume of a guest, as a host in C names it.
#[repr(C)]
#[derive(Clone, Copy)]
pub struct VolumeSource<'a> {
    /// 0 a fresh volume, 1 that of the sectors, 2 the same, of which a record is kept; 5 and 6 as 1 and 2, of more sectors.
    pub kind: u32,
    pub sectors: &'a [Sector],
}

/// Where the volume of a guest comes from.
#[derive(Clone, Copy)]
pub enum Origin<'a> {
    /// An empty one is made in memory.
    Fresh,
    /// It is that of these sectors, which are copied; what is done to it may be recorded, and it may be huge.
    Sectors(&'a [Sector], bool, bool),
}

impl<'a> VolumeSource<'a> {
    ghost use Rattle.sandbox_host.specs.Volumes.{origin_of};

    /// What it names, if it is a kind that is known.
    pub(crate) fn origin(&self) -> Option<Origin<'a>>
        ensures { result ≡ origin_of self.now }
    {
        match self.kind {
            0 => Some(Origin::Fresh),
            1 => Some(Origin::Sectors(self.sectors, false, false)),
            2 => Some(Origin::Sectors(self.sectors, true, false)),
            5 => Some(Origin::Sectors(self.sectors, false, true)),
            6 => Some(Origin::Sectors(self.sectors, true, true)),
            _ => None,
        }
    }
}

/// Makes an empty volume in memory, which is open at once.
fn open_fresh(alloc: Global) -> Result<Volume<RecordedDevice>, VolumeFault>
    ensures opens { IfOk result (IsVolume Origin.Fresh) }
    ensures refused { IfErr result (RefusesVolume Origin.Fresh) }
{
    let device = RecordedDevice::new(alloc, FRESH_SECTORS)?;
    match Volume::create(alloc, device, FRESH_SECTORS, FRESH_SLOTS) {
        Ok(volume) => Ok(volume),
        Err(Refused { fault, .. }) => Err(fault),
    }
}

/// Opens the volume that sectors hold, of which a copy is made.
fn open_sectors(
    alloc: Global,
    sectors: &[Sector],
    is_recorded: bool,
    is_huge: bool,
) -> Result<Volume<RecordedDevice>, VolumeFault>
    ensures opens { IfOk result (IsVolume (Origin.Sectors sectors.entry is_recorded is_huge)) }
    ensures refused { IfErr result (RefusesVolume
        (Origin.Sectors sectors.entry is_recorded is_huge)) }
{
    let most = most_sectors(is_huge);
    if sectors.len() > most {
        return Err(VolumeFault::Geometry);
    }
    let device = RecordedDevice::of(alloc, sectors, is_recorded)?;
    match Volume::open(alloc, device) {
        Ok(volume) => Ok(volume),
        Err(Refused { fault, .. }) => Err(fault),
    }
}

/// Opens the volume of a guest.
pub(crate) fn open_volume(
    alloc: Global,
    origin: Origin<'_>,
) -> Result<Volume<RecordedDevice>, VolumeFault>
    ensures opens { IfOk result (IsVolume origin.entry) }
    ensures refused { IfErr result (RefusesVolume origin.entry) }
{
    match origin {
        Origin::Fresh => open_fresh(alloc),
        Origin::Sectors(sectors, is_recorded, is_huge) => {
            open_sectors(alloc, sectors, is_recorded, is_huge)
        }
    }
}

//! A file on a volume in memory, from formatting to what is found after a crash.

ghost use Rattle.std.specs.Prelude.{◌≡◌, ◌≤◌, ◌⊎◌, ◌∷◌, [], ℕ, IfOk, IfErr, OnOk, MatchResult, length};
ghost use Rattle.vol_inode.specs.Name.{IsName};
ghost use Rattle.vol_sector.specs.Disk.{Leaves};
ghost use Rattle.vol_sector.specs.Memory.{disk_of};
ghost use Rattle.vol_tree.specs.Tree.{File};
ghost use Rattle.vol_tree.specs.PathLaws.{Maps};
ghost use Rattle.worked.specs.Stored.{Lasts, IsReached, IsFirstPart};

use std::alloc::{AllocError, Global};
use thiserror::Error;
use vol_sector::{MemoryDevice, Refused, VolumeFault, crash_leaves_what_is_picked};
use vol_tree::{
    Errno, Serial, Volume, created_adds_one_path, created_is_a_tree, one_tree,
    the_volumes_sectors_decide, written_changes_one_file,
};

/// Why nothing is found.
#[derive(Debug, Drop, Error)]
pub enum FileFault {
    #[error("out of memory")]
    Memory,
    #[error("the volume is refused")]
    Volume,
    #[error("a call is refused")]
    Call,
}

/// Stores a new file in the root of a volume, and syncs it.
///
/// Then the file stands there with its bytes, and whatever a crash leaves is opened with it. Stopped
/// at any moment, also inside a call that is refused, an image stands for the tree at first, for that
/// with the empty file or for that with its bytes.
pub fn store(volume: &mut Volume<MemoryDevice>, name: &[u8], bytes: &[u8]) -> Result<Serial, Errno>
    requires name { IsName name.now }
    requires piece { length bytes.now ≤ 16384 }
    ensures found { IfOk result (λ serial.
        Maps volume.new.tree (name.now ∷ []) serial (File bytes.now)) }
    ensures lasts { OnOk result (Lasts volume.new) }
    ensures stopped { Leaves (disk_of volume.old.device) (disk_of volume.new.device)
        (IsFirstPart (disk_of volume.old.device) volume.old.numbers
        (IsReached volume.old name.now bytes.now)) }
{
    volume.is_a_tree();
    created_adds_one_path();
    written_changes_one_file();
    one_tree();
    let serial = volume.create_file(Serial::ROOT, name)?;
    volume.is_a_tree();
    volume.write(serial, 0, bytes)?;
    volume.sync()?;
    volume.is_a_tree();
    Ok(serial)
}

/// Opens what a crash leaves of a volume's device by these picks (see `MemoryDevice::crashed`).
///
/// Where each crash leaves the volume's tree, it is found, and with the volume's numbers; or the
/// device or the memory fails.
pub fn opened_after_a_crash(
    alloc: Global,
    volume: Volume<MemoryDevice>,
    picks: &[u32],
) -> Result<Result<Volume<MemoryDevice>, Refused<MemoryDevice>>, AllocError>
    ensures { IfOk result (λ opened. Lasts volume → MatchResult opened
        (λ v. (v.numbers ≡ volume.numbers) × (v.tree ≡ volume.tree))
        (λ r. (r.fault ≡ VolumeFault.Device) ⊎ (r.fault ≡ VolumeFault.Memory))) }
{
    let device = volume.into_device();
    crash_leaves_what_is_picked(&device);
    the_volumes_sectors_decide();
    let left = device.crashed(alloc, picks)?;
    Ok(Volume::open(alloc, left))
}

/// Formats a device in memory, opens it, stores a file, lets a crash leave of it what these picks
/// say, and opens that: the file is there, with its bytes.
pub fn found_after_a_crash(
    alloc: Global,
    name: &[u8],
    bytes: &[u8],
    picks: &[u32],
) -> Result<Volume<MemoryDevice>, FileFault>
    requires name { IsName name.now }
    requires piece { length bytes.now ≤ 16384 }
    ensures { IfOk result (λ v. (serial : ℕ) × Maps v.tree (name.now ∷ []) serial
        (File bytes.now)) }
{
    let Ok(device) = MemoryDevice::new(alloc, 1000, 1000) else {
        return Err(FileFault::Memory);
    };
    let Ok(device) = Volume::format(device, 1000, 16) else {
        return Err(FileFault::Volume);
    };
    let Ok(mut volume) = Volume::open(alloc, device) else {
        return Err(FileFault::Volume);
    };
    let Ok(_) = store(&mut volume, name, bytes) else {
        return Err(FileFault::Call);
    };
    match opened_after_a_crash(alloc, volume, picks) {
        Ok(Ok(volume)) => Ok(volume),
        Ok(Err(_)) => Err(FileFault::Volume),
        Err(_) => Err(FileFault::Memory),
    }
}

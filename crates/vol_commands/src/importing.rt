//! A tar stream brought into a directory of the volume on a device.

ghost use Rattle.std.specs.Prelude.{◌≡◌, OnErr, OnOk};
ghost use Rattle.stream_answers.specs.Hearing.{Hears, Moves};
ghost use Rattle.vol_sector.specs.Disk.{Image, Leaves};
ghost use Rattle.vol_tree.specs.Opened.{Keeps, GoesOn};
ghost use Rattle.vol_tree.specs.Stands.{StandsAs};
ghost use Rattle.vol_commands.specs.declared.importing.ImportFailure.TheVariants.{Path, Halted};
ghost use Rattle.vol_commands.specs.Going.{KeepsWithin};
ghost use Rattle.vol_commands.specs.Importing.{Brings, IsPartOfBringing, PerformsImport, blames_import, blames_input};
ghost use Rattle.vol_commands.specs.Tasks.{ReflectsAny};
ghost use Rattle.vol_commands.specs.internal.Working.{IsWorking};

use crate::volume_path::directory_named;
use std::alloc::Global;
use stream_answers::Inlet;
use vol_sector::{Device, Refused, VolumeFault};
use vol_tar::{Halted, import};
use vol_tree::{Errno, Volume};

/// Why an import into the volume of a device ends without success.
#[derive(Drop)]
pub enum ImportFailure {
    /// The volume is refused, or the device failed as it was opened.
    Volume(VolumeFault),
    /// The path names no directory, or the device failed as it was looked for.
    Path(Errno),
    /// The import came so far: the members in the tree, and why the next one isn't.
    Halted(Halted),
}

impl From<Errno> for ImportFailure {
    ghost from_gives = { λ errno f. f ≡ Path errno };

    fn from(errno: Errno) -> Self {
        ImportFailure::Path(errno)
    }
}

impl From<Halted> for ImportFailure {
    ghost from_gives = { λ halted f. f ≡ Halted halted };

    fn from(halted: Halted) -> Self {
        ImportFailure::Halted(halted)
    }
}

/// Brings a stream into the directory of a path, and makes that last.
fn bring<D: Device, R: Inlet>(
    alloc: Global,
    volume: &mut Volume<D>,
    path: &str,
    input: &mut R,
) -> Result<u64, ImportFailure>
    requires { IsWorking volume.old }
    ensures kept { Keeps D.honest D.size D.failures volume.old volume.new (blames_import result) }
    ensures goes_on { GoesOn D.goes_on volume.old volume.new }
    ensures heard { Hears (Moves R.gave) R.refused (blames_input result) input.old input.new }
    ensures brings { D.honest volume.old.device
        → Brings volume.old.numbers volume.old.tree path.now (R.remaining input.old)
        (R.remaining input.new) volume.new.tree result }
    ensures crash { D.honest volume.old.device
        → Leaves (D.disk volume.old.device) (D.disk volume.new.device)
        (ReflectsAny (D.disk volume.old.device) volume.old.numbers
        (IsPartOfBringing volume.old.numbers volume.old.tree path.now (R.remaining input.old))) }
    ensures durable { D.honest volume.old.device → OnOk result ((c : Image)
        → (D.disk volume.new.device).may_leave c → StandsAs c volume.new.numbers volume.new.tree) }
{
    let directory = directory_named(volume, path)?;
    Ok(import(alloc, volume, directory, input)?)
}

/// Opens the volume of a device, brings the members of a tar stream into the directory of a path,
/// makes that last, and gives the device back with the number of members.
///
/// Where a member is refused, nothing is synced: the volume may have the tree from before, or a
/// first part of the members, where the volume has committed them.
pub fn import_into<D: Device, R: Inlet>(
    alloc: Global,
    device: D,
    path: &str,
    input: &mut R,
) -> (Result<u64, ImportFailure>, D)
    ensures performs { PerformsImport D.honest D.disk D.size D.failures path.now device
        (R.remaining input.old) (R.remaining input.new) result.1 result.0 }
    ensures goes_on { KeepsWithin D.honest D.disk D.size D.goes_on device result.1 }
    ensures heard { Hears (Moves R.gave) R.refused (blames_input result.0) input.old input.new }
{
    match Volume::open(alloc, device) {
        Ok(mut volume) => {
            let done = bring(alloc, &mut volume, path, input);
            (done, volume.into_device())
        }
        Err(Refused { device, fault }) => (Err(ImportFailure::Volume(fault)), device),
    }
}

//! A directory of the volume on a device printed as a tar stream.

ghost use Rattle.std.specs.Prelude.{◌≡◌};
ghost use Rattle.path_walk.specs.Walk.{Asked};
ghost use Rattle.vol_commands.specs.declared.exporting.ExportFailure.TheVariants.{Path, Stopped};
ghost use Rattle.vol_commands.specs.Going.{KeepsWithin};
ghost use Rattle.stream_answers.specs.Hearing.{Hears, Moves, Refuses};
ghost use Rattle.vol_commands.specs.Exporting.{PerformsExport, PrintsDirectory, blames_export, blames_output};
ghost use Rattle.vol_commands.specs.internal.Working.{IsWorking};

use crate::volume_path::directory_named;
use std::alloc::Global;
use stream_answers::Outlet;
use vol_sector::{Device, Refused, VolumeFault};
use vol_tar::{TarReason, export};
use vol_tree::{Errno, Volume};

/// Why an export from the volume of a device ends without success.
#[derive(Clone, Copy)]
pub enum ExportFailure {
    /// The volume is refused, or the device failed as it was opened.
    Volume(VolumeFault),
    /// The path names no directory, or the device failed as it was looked for.
    Path(Errno),
    /// A beginning of the stream is printed, and this is why no more.
    Stopped(TarReason),
}

impl From<Errno> for ExportFailure {
    ghost from_gives = { λ errno f. f ≡ Path errno };

    fn from(errno: Errno) -> Self {
        ExportFailure::Path(errno)
    }
}

impl From<TarReason> for ExportFailure {
    ghost from_gives = { λ why f. f ≡ Stopped why };

    fn from(why: TarReason) -> Self {
        ExportFailure::Stopped(why)
    }
}

/// Prints all entries below the directory of a path as members of a tar stream, and its end.
fn print_directory<D: Device, W: Outlet>(
    alloc: Global,
    volume: &mut Volume<D>,
    path: &str,
    out: &mut W,
) -> Result<(), ExportFailure>
    requires { IsWorking volume.old }
    ensures asked { Asked D.honest D.disk D.size D.failures D.goes_on volume.old volume.new
        (blames_export result) }
    ensures prints { D.honest volume.old.device → PrintsDirectory volume.old.tree path.now
        (W.contents out.old) (W.contents out.new) result }
    ensures heard { Hears (Moves W.took) (Refuses W.took W.refused) (blames_output result) out.old
        out.new }
{
    let directory = directory_named(volume, path)?;
    export(alloc, volume, directory, out)?;
    Ok(())
}

/// Opens the volume of a device, prints all entries below the directory of a path as members of a
/// tar stream with its end, and gives the device back. Where it is refused, a beginning of the
/// stream may be printed.
pub fn export_from<D: Device, W: Outlet>(
    alloc: Global,
    device: D,
    path: &str,
    out: &mut W,
) -> (Result<(), ExportFailure>, D)
    ensures performs { PerformsExport D.honest D.disk D.size D.failures path.now device
        (W.contents out.old) (W.contents out.new) result.1 result.0 }
    ensures goes_on { KeepsWithin D.honest D.disk D.size D.goes_on device result.1 }
    ensures heard { Hears (Moves W.took) (Refuses W.took W.refused) (blames_output result.0) out.old
        out.new }
{
    match Volume::open(alloc, device) {
        Ok(mut volume) => {
            let done = print_directory(alloc, &mut volume, path, out);
            (done, volume.into_device())
        }
        Err(Refused { device, fault }) => (Err(ExportFailure::Volume(fault)), device),
    }
}

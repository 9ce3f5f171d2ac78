//! What is done with the volume on a device.

ghost use Rattle.std.specs.Prelude.{◌⊎◌, ◌≡◌, ◌↔◌, OnOk, true};
ghost use Rattle.std.specs.Io.KnownBytes.{Keeps};
ghost use Rattle.vol_sector.specs.Disk.{Leaves, counted};
ghost use Rattle.stream_answers.specs.Hearing.{Hears, Moves, Refuses};
ghost use Rattle.vol_commands.specs.Blame.{IsCause, blames_device, blames_stream};
ghost use Rattle.vol_commands.specs.Tasks.{ReflectsAny};
ghost use Rattle.vol_tree.specs.Opened.{GoesOn};
ghost use Rattle.vol_commands.specs.Going.{KeepsWithin};
ghost use Rattle.vol_commands.specs.Doing.{Does, IsPartOf, Lasts, Performs, IsRaised, version_after};
ghost use Rattle.vol_commands.specs.Doing.{PrintsNothing, ReadsNothing, prints, reads_input};
ghost use Rattle.vol_commands.specs.internal.Working.{IsWorking};

use crate::changing::change_tree;
use crate::failure::Failure;
use crate::printing::{check, describe, get, list};
use crate::putting::put;
use crate::replacing::put_whole;
use sandbox_args::{ListForm, Task};
use std::alloc::Global;
use stream_answers::{Inlet, Outlet};
use vol_inode::Version;
use vol_sector::{Device, Refused};
use vol_tree::Volume;

/// The form of a listing without options.
const PLAIN: ListForm = ListForm {
    escape: false,
    null: false,
};

/// The version that an upgrade makes, a huge one or not.
fn version_after(huge: bool) -> Version
    ensures { result ≡ version_after huge }
{
    if huge { Version::Four } else { Version::Two }
}

/// Does a task with an open volume.
fn done_with<D: Device, R: Inlet, W: Outlet>(
    alloc: Global,
    volume: &mut Volume<D>,
    task: Task<'_>,
    input: &mut R,
    out: &mut W,
) -> Result<(), Failure>
    requires { IsWorking volume.old }
    ensures does { D.honest volume.old.device
        → Does task.entry volume.old.numbers volume.old.tree (R.remaining input.old)
        (R.remaining input.new) (W.contents out.old) (W.contents out.new) volume.new.tree result }
    ensures crash { D.honest volume.old.device
        → Leaves (D.disk volume.old.device) (D.disk volume.new.device)
        (λ c. ReflectsAny (D.disk volume.old.device) volume.old.numbers
        (IsPartOf task.entry volume.old.numbers volume.old.tree (R.remaining input.old)) c
        ⊎ IsRaised task.entry volume.old.numbers volume.old.tree c) }
    ensures lasts { D.honest volume.old.device → OnOk result
        (Lasts task.entry volume.old.numbers volume.new.tree (D.disk volume.new.device).may_leave) }
    ensures honest { D.honest volume.old.device ↔ D.honest volume.new.device }
    ensures size { D.size volume.new.device ≡ D.size volume.old.device }
    ensures failures { D.failures volume.new.device
        ≡ counted (blames_device result) (D.failures volume.old.device) }
    ensures goes_on { GoesOn D.goes_on volume.old volume.new }
    ensures heard { reads_input task.entry ≡ true
        → IsCause (Moves R.gave) R.refused result input.old input.new }
    ensures printed { prints task.entry ≡ true
        → Hears (Moves W.took) (Refuses W.took W.refused) (blames_stream result) out.old out.new }
    ensures reads_nothing { ReadsNothing task.entry
        → R.remaining input.new ≡ R.remaining input.old }
    ensures prints_nothing { PrintsNothing task.entry
        → Keeps (W.contents out.old) (W.contents out.new) }
{
    match task {
        Task::List { path } => list(volume, path, PLAIN, out),
        Task::ListAs { path, form } => list(volume, path, form, out),
        Task::Get { path } => get(volume, path, out),
        Task::Put { path } => put(volume, path, input),
        Task::PutWhole { path } => put_whole(alloc, volume, path, input),
        Task::Check => check(volume, out),
        Task::Upgrade { huge } => Ok(volume.upgrade(version_after(huge))?),
        Task::Stat { path } => describe(volume, path, out),
        Task::Change(change) => change_tree(volume, change),
    }
}

/// Opens the volume of a device, does a task with it, and gives the device back. What isn't
/// committed when it ends is discarded.
pub fn perform<D: Device, R: Inlet, W: Outlet>(
    alloc: Global,
    device: D,
    task: Task<'_>,
    input: &mut R,
    out: &mut W,
) -> (Result<(), Failure>, D)
    ensures performs { Performs D.honest D.disk D.size D.failures task.entry device
        (R.remaining input.old) (R.remaining input.new) (W.contents out.old) (W.contents out.new)
        result.1 result.0 }
    ensures goes_on { KeepsWithin D.honest D.disk D.size D.goes_on device result.1 }
    ensures heard { reads_input task.entry ≡ true
        → IsCause (Moves R.gave) R.refused result.0 input.old input.new }
    ensures printed { prints task.entry ≡ true
        → Hears (Moves W.took) (Refuses W.took W.refused) (blames_stream result.0) out.old out.new }
{
    match Volume::open(alloc, device) {
        Ok(mut volume) => {
            let done = done_with(alloc, &mut volume, task, input, out);
            (done, volume.into_device())
        }
        Err(Refused { device, fault }) => (Err(Failure::Volume(fault)), device),
    }
}

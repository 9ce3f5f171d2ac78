//! Putting the input into a file of a volume whole: beside the old one first, whose place it then takes.

ghost use Rattle.std.specs.Prelude.{◌≡◌, ◌++◌, Err, IfErr, IfOk, OnOk, codes, false, string_bytes, true};
ghost use Rattle.stream_answers.specs.Hearing.{Moves};
ghost use Rattle.vol_sector.specs.Disk.{Image, Leaves};
ghost use Rattle.vol_tree.specs.Stands.{StandsAs};
ghost use Rattle.vol_tree.specs.Clauses.{is_io};
ghost use Rattle.vol_tree.specs.Opened.{Keeps, GoesOn};
ghost use Rattle.path_walk.specs.Walk.{Asked};
ghost use Rattle.vol_commands.specs.Blame.{IsCause, blames_device, is_stream};
ghost use Rattle.vol_commands.specs.Changes.{entry_removed};
ghost use Rattle.vol_commands.specs.Replacing.{IsFilesPlace, IsPartOfWhole, IsRemovalPart, PutsWhole, RefusesPlace, TakesBack, WritesBeside, path_beside};
ghost use Rattle.vol_commands.specs.Tasks.{ReflectsAny};
ghost use Rattle.vol_commands.specs.internal.Working.{IsWorking};

use crate::changing::change_tree;
use crate::failure::Failure;
use crate::putting::put;
use crate::volume_path::file_named;
use sandbox_args::Change;
use std::alloc::{AllocError, Global};
use stream_answers::Inlet;
use vol_sector::{Device, VolumeFault};
use vol_tree::{Errno, Volume};

/// What the path of the new file ends with until it has the place of the old one.
const SUFFIX: &str = ".sandbox-put";

/// The path of the new file until it has the place of the old one.
fn path_beside(alloc: Global, path: &str) -> Result<String, AllocError>
    ensures { IfOk result (λ text. string_bytes text ≡ path_beside path.now) }
{
    let mut text = String::new(alloc);
    text.push_str(path)?;
    text.push_str(SUFFIX)?;
    Ok(text)
}

/// Refuses a path that is neither that of a file nor of an entry that isn't there.
fn ask_place<D: Device>(volume: &mut Volume<D>, path: &str) -> Result<(), Errno>
    requires { IsWorking volume.old }
    ensures asked { Asked D.honest D.disk D.size D.failures D.goes_on volume.old volume.new
        (is_io result) }
    ensures place { D.honest volume.old.device
        → OnOk result (IsFilesPlace volume.old.tree path.now) }
    ensures refused { D.honest volume.old.device
        → IfErr result (RefusesPlace volume.old.tree path.now) }
{
    match file_named(volume, path) {
        Ok(_) | Err(Errno::NotFound) => Ok(()),
        Err(errno) => Err(errno),
    }
}

/// Takes a new file away again, and says why there is none.
fn take_back<D: Device>(volume: &mut Volume<D>, beside: &str, failure: Failure) -> Failure
    requires working { IsWorking volume.old }
    requires blameless { blames_device (Err failure) ≡ false }
    ensures kept { Keeps D.honest D.size D.failures volume.old volume.new
        (blames_device (Err result)) }
    ensures goes_on { GoesOn D.goes_on volume.old volume.new }
    ensures unblamed { is_stream result ≡ true → is_stream failure ≡ true }
    ensures back { D.honest volume.old.device
        → TakesBack volume.old.tree beside.now volume.new.tree failure result }
    ensures crash { D.honest volume.old.device
        → Leaves (D.disk volume.old.device) (D.disk volume.new.device)
        (ReflectsAny (D.disk volume.old.device) volume.old.numbers
        (IsRemovalPart volume.old.tree beside.now)) }
{
    let _ = change_tree(volume, Change::Remove { path: beside });
    if volume.failed() {
        Failure::Tree(Errno::Io)
    } else {
        failure
    }
}

/// Puts the input into the file of one path, and gives that the place of the file of another one.
fn write_beside<D: Device, R: Inlet>(
    volume: &mut Volume<D>,
    beside: &str,
    path: &str,
    input: &mut R,
) -> Result<(), Failure>
    requires { IsWorking volume.old }
    ensures kept { Keeps D.honest D.size D.failures volume.old volume.new (blames_device result) }
    ensures goes_on { GoesOn D.goes_on volume.old volume.new }
    ensures heard { IsCause (Moves R.gave) R.refused result input.old input.new }
    ensures writes { D.honest volume.old.device
        → WritesBeside volume.old.numbers volume.old.tree beside.now path.now
        (R.remaining input.old) (R.remaining input.new) volume.new.tree result }
    ensures crash { D.honest volume.old.device
        → Leaves (D.disk volume.old.device) (D.disk volume.new.device)
        (ReflectsAny (D.disk volume.old.device) volume.old.numbers
        (IsPartOfWhole volume.old.numbers volume.old.tree beside.now path.now
        (R.remaining input.old))) }
    ensures durable { D.honest volume.old.device → OnOk result ((c : Image)
        → (D.disk volume.new.device).may_leave c → StandsAs c volume.new.numbers volume.new.tree) }
{
    match put(volume, beside, input) {
        Ok(()) => change_tree(
            volume,
            Change::Move {
                from: beside,
                to: path,
            },
        ),
        Err(failure) if volume.failed() => Err(failure),
        Err(failure) => Err(take_back(volume, beside, failure)),
    }
}

/// Puts the input into the file of a path, whole: into a new file beside it, which takes its place once it has all of the
/// input, and makes that last. Where it is refused, the file of the path is as it was.
pub(crate) fn put_whole<D: Device, R: Inlet>(
    alloc: Global,
    volume: &mut Volume<D>,
    path: &str,
    input: &mut R,
) -> Result<(), Failure>
    requires { IsWorking volume.old }
    ensures kept { Keeps D.honest D.size D.failures volume.old volume.new (blames_device result) }
    ensures goes_on { GoesOn D.goes_on volume.old volume.new }
    ensures heard { IsCause (Moves R.gave) R.refused result input.old input.new }
    ensures puts { D.honest volume.old.device
        → PutsWhole volume.old.numbers volume.old.tree path.now (R.remaining input.old)
        (R.remaining input.new) volume.new.tree result }
    ensures crash { D.honest volume.old.device
        → Leaves (D.disk volume.old.device) (D.disk volume.new.device)
        (ReflectsAny (D.disk volume.old.device) volume.old.numbers
        (IsPartOfWhole volume.old.numbers volume.old.tree (path_beside path.now) path.now
        (R.remaining input.old))) }
    ensures durable { D.honest volume.old.device → OnOk result ((c : Image)
        → (D.disk volume.new.device).may_leave c → StandsAs c volume.new.numbers volume.new.tree) }
{
    ask_place(volume, path)?;
    match path_beside(alloc, path) {
        Ok(beside) => write_beside(volume, beside.as_str(), path, input),
        Err(_) => Err(Failure::Volume(VolumeFault::Memory)),
    }
}

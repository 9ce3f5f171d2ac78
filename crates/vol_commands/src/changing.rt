//! Changing the tree of a volume: a directory is made, an entry moved, a file, an empty directory or a whole tree removed.

ghost use Rattle.std.specs.Prelude.{◌≡◌, OnOk, false};
ghost use Rattle.vol_sector.specs.Disk.{Image, Leaves};
ghost use Rattle.vol_tree.specs.Stands.{StandsAs};
ghost use Rattle.vol_inode.specs.Name.{IsName};
ghost use Rattle.vol_tree.specs.Tree.{IsDirectory};
ghost use Rattle.vol_tree.specs.Calls.{renamed, name_at, parent_at};
ghost use Rattle.vol_tree.specs.Opened.{Keeps, GoesOn};
ghost use Rattle.path_walk.specs.Paths.{Missing};
ghost use Rattle.path_walk.specs.Walk.{IsEntryOf, IsReached, reached_as};
ghost use Rattle.vol_commands.specs.Tasks.{ReflectsAny};
ghost use Rattle.vol_commands.specs.Changes.{Changes, IsPartOfChange, directory_made};
ghost use Rattle.vol_commands.specs.Changes.{entry_moved, entry_removed, meant, moved_to};
ghost use Rattle.vol_commands.specs.Blame.{blames_device, blames_stream};
ghost use Rattle.vol_commands.specs.internal.Changing.{Applied, Changed, IsPlace};
ghost use Rattle.vol_commands.specs.internal.Working.{IsWorking};

use crate::failure::Failure;
use crate::removing::remove_all;
use crate::volume_path::{entry_named, reached};
use path_walk::{Reached, is_directory};
use sandbox_args::Change;
use vol_inode::is_name;
use vol_sector::Device;
use vol_tree::{Errno, Serial, Volume};

/// Makes the directory that a path misses; one that is there is refused with 20.
fn make_directory<D: Device>(volume: &mut Volume<D>, path: &str) -> Result<(), Errno>
    requires { IsWorking volume.old }
    ensures { Changed D.honest D.disk D.size D.failures D.goes_on (λ T. directory_made T path.now)
        volume.old volume.new result }
{
    let (found, _) = reached(volume, path)?;
    match found {
        Reached::Found(_) => Err(Errno::Exist),
        Reached::Missing { parent, name } => {
            volume.create_dir(Serial::new(parent), name)?;
            Ok(())
        }
    }
}

/// Removes the file of a path, or the directory, where it is empty and not the root.
fn remove<D: Device>(volume: &mut Volume<D>, path: &str) -> Result<(), Errno>
    requires { IsWorking volume.old }
    ensures { Changed D.honest D.disk D.size D.failures D.goes_on (λ T. entry_removed T path.now)
        volume.old volume.new result }
{
    let (serial, is_directory) = entry_named(volume, path)?;
    if is_directory {
        volume.rmdir(serial)
    } else {
        volume.unlink(serial)
    }
}

/// Refuses an entry the place of the root, which is never empty; the root itself doesn't move.
fn replace_root<D: Device>(volume: &mut Volume<D>, source: Serial) -> Result<(), Errno>
    requires working { IsWorking volume.old }
    requires source { IsEntryOf D.honest volume.old source }
    ensures { Changed D.honest D.disk D.size D.failures D.goes_on
        (λ T. renamed T source (parent_at T 1) (name_at T 1)) volume.old volume.new result }
{
    volume.is_a_tree();
    if source == Serial::ROOT {
        return Err(Errno::Invalid);
    }
    if is_directory(volume, source)? {
        Err(Errno::NotEmpty)
    } else {
        Err(Errno::IsDirectory)
    }
}

/// Gives an entry the place and the name of another one, which goes.
fn move_onto<D: Device>(volume: &mut Volume<D>, source: Serial, target: Serial) -> Result<(), Errno>
    requires working { IsWorking volume.old }
    requires source { IsEntryOf D.honest volume.old source }
    requires target { IsEntryOf D.honest volume.old target }
    ensures { Changed D.honest D.disk D.size D.failures D.goes_on
        (λ T. renamed T source (parent_at T target) (name_at T target)) volume.old volume.new
        result }
{
    if target == Serial::ROOT {
        return replace_root(volume, source);
    }
    volume.is_a_tree(); // a law: the target has a name
    let stat = volume.stat(target)?;
    let name = &stat.name[..usize::from(stat.name_length)];
    if !is_name(name) {
        return Err(Errno::Invalid); // no honest device shows such an entry
    }
    volume.rename(source, stat.parent, name)
}

/// Gives an entry a place and a name that no other has; where the path wants a directory, only a directory.
fn move_into<D: Device>(
    volume: &mut Volume<D>,
    source: Serial,
    parent: Serial,
    name: &[u8],
    wants_dir: bool,
) -> Result<(), Errno>
    requires source { IsEntryOf D.honest volume.old source }
    requires parent { IsEntryOf D.honest volume.old parent }
    requires name { IsName name.now }
    requires directory { D.honest volume.old.device → IsDirectory volume.old.tree parent }
    ensures { Changed D.honest D.disk D.size D.failures D.goes_on
        (λ T. moved_to T source (Missing parent name.now, wants_dir)) volume.old volume.new result }
{
    let is_directory = is_directory(volume, source)?;
    if wants_dir && !is_directory {
        return Err(Errno::NotDirectory);
    }
    volume.rename(source, parent, name)
}

/// Gives an entry the place and the name that a path has.
fn move_to<D: Device>(
    volume: &mut Volume<D>,
    source: Serial,
    target: Reached<'_>,
    wants_dir: bool,
) -> Result<(), Errno>
    requires working { IsWorking volume.old }
    requires source { IsEntryOf D.honest volume.old source }
    requires reached { IsReached D.honest volume.old target }
    requires place { D.honest volume.old.device → IsPlace volume.old.tree (reached_as target) }
    ensures { Changed D.honest D.disk D.size D.failures D.goes_on
        (λ T. moved_to T source (reached_as target.entry, wants_dir)) volume.old volume.new result }
{
    match target {
        Reached::Found(target) => move_onto(volume, source, Serial::new(target)),
        Reached::Missing { parent, name } => {
            move_into(volume, source, Serial::new(parent), name, wants_dir)
        }
    }
}

/// Gives the entry of one path the place and the name of the other. Both are read and walked before the first has to
/// be there.
fn move_entry<D: Device>(volume: &mut Volume<D>, from: &str, to: &str) -> Result<(), Errno>
    requires { IsWorking volume.old }
    ensures { Changed D.honest D.disk D.size D.failures D.goes_on
        (λ T. entry_moved T from.now to.now) volume.old volume.new result }
{
    let (source, _) = reached(volume, from)?;
    let (target, wants_dir) = reached(volume, to)?;
    match source {
        Reached::Found(source) => move_to(volume, Serial::new(source), target, wants_dir),
        Reached::Missing { .. } => Err(Errno::NotFound),
    }
}

/// Does a change, which a sync makes last.
fn apply<D: Device>(volume: &mut Volume<D>, change: Change<'_>) -> Result<(), Errno>
    requires { IsWorking volume.old }
    ensures { Applied D.honest D.disk D.size D.failures D.goes_on (λ T. meant T change.entry)
        (λ T. IsPartOfChange T change.entry) volume.old volume.new result }
{
    match change {
        Change::MakeDirectory { path } => make_directory(volume, path),
        Change::Move { from, to } => move_entry(volume, from, to),
        Change::Remove { path } => remove(volume, path),
        Change::RemoveAll { path } => remove_all(volume, path),
    }
}

/// Changes the tree, and makes that last. Where it is refused, the tree is as it was; where the device fails, it is so
/// or changed, or a part of the entries to be removed is gone.
pub(crate) fn change_tree<D: Device>(
    volume: &mut Volume<D>,
    change: Change<'_>,
) -> Result<(), Failure>
    requires { IsWorking volume.old }
    ensures kept { Keeps D.honest D.size D.failures volume.old volume.new (blames_device result) }
    ensures goes_on { GoesOn D.goes_on volume.old volume.new }
    ensures unblamed { blames_stream result ≡ false }
    ensures changes { D.honest volume.old.device
        → Changes volume.old.tree change.entry volume.new.tree result }
    ensures crash { D.honest volume.old.device
        → Leaves (D.disk volume.old.device) (D.disk volume.new.device)
        (ReflectsAny (D.disk volume.old.device) volume.old.numbers
        (IsPartOfChange volume.old.tree change.entry)) }
    ensures durable { D.honest volume.old.device → OnOk result ((c : Image)
        → (D.disk volume.new.device).may_leave c → StandsAs c volume.new.numbers volume.new.tree) }
{
    apply(volume, change)?;
    volume.sync()?;
    Ok(())
}
